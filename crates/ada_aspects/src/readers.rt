ghost use Rattle.std.specs.Prelude.{◌≡◌, ◌≤◌, length, IfOk};
ghost use Rattle.ada_grammar.specs.Parts as parts;
ghost use Rattle.ada_grammar.specs.Lexemes.{lexeme, lexemes, text_of};
ghost use Rattle.ada_grammar.specs.Phrases as phrases;
ghost use Rattle.ada_grammar.specs.Standing.{Finds, Forth, Grows, Holds, Skips};
ghost use Rattle.ada_tree.specs.Identifiers.{aspect_name, mode_named, names_mode};

use ada_exprs::parts::name_from;
use ada_grammar::{
    Children, Class, Cursor, Fault, accept, add_aspect, add_named_aspect, declare, expect, text,
};
use ada_tree::{
    AspectKind, AspectName, DeclKind, Definition, GlobalMode, Listing, Mark, Reserved, Token,
    Tokens, Units, aspect_name, mode_of,
};
use spark_base::Span;
use std::alloc::Global;

/// A pragma, behind its word. It leaves no node.
pub fn pragma(tokens: &Tokens, cursor: Cursor) -> Result<Cursor, Fault>
    requires at { cursor.at ≤ length (lexemes tokens.now) }
    ensures { Skips parts.Pragma (lexemes tokens.now) cursor result }
{
    let (_, behind_name) = expect(tokens, cursor, Class::Word)?;
    if let Some((_, behind_opening)) = accept(tokens, behind_name, Class::Mark(Mark::Open))? {
        let behind_balanced = balanced(tokens, behind_opening)?;
        let (_, behind_end) = expect(tokens, behind_balanced, Class::Mark(Mark::Semicolon))?;
        return Ok(behind_end);
    }
    let (_, behind_end_2) = expect(tokens, behind_name, Class::Mark(Mark::Semicolon))?;
    Ok(behind_end_2)
}

/// Aspects, from `with` on.
pub fn read_all(
    alloc: Global,
    units: &mut Units,
    tokens: &Tokens,
    cursor: Cursor,
    into: &mut Children,
) -> Result<Cursor, Fault>
    requires at { cursor.at ≤ length (lexemes tokens.now) }
    ensures grows { Grows units.old units.new }
    ensures goes { IfOk result (λ next. Forth (lexemes tokens.now) cursor next) }
    ensures reads { (ds : phrases.Children) → Holds units.old into.old ds → Finds (parts.Aspects ds) (lexemes tokens.now) cursor units.new into.new result }
{
    let (_, behind_keyword) = expect(tokens, cursor, Class::Reserved(Reserved::With))?;
    behind_with(alloc, units, tokens, behind_keyword, into)
}

/// Aspects, if any stand there.
pub fn optional_aspects(
    alloc: Global,
    units: &mut Units,
    tokens: &Tokens,
    cursor: Cursor,
    into: &mut Children,
) -> Result<Cursor, Fault>
    requires at { cursor.at ≤ length (lexemes tokens.now) }
    ensures grows { Grows units.old units.new }
    ensures goes { IfOk result (λ next. Forth (lexemes tokens.now) cursor next) }
    ensures reads { (ds : phrases.Children) → Holds units.old into.old ds → Finds (parts.OptionalAspects ds) (lexemes tokens.now) cursor units.new into.new result }
{
    if let Some((_, behind_keyword)) = accept(tokens, cursor, Class::Reserved(Reserved::With))? {
        return behind_with(alloc, units, tokens, behind_keyword, into);
    }
    Ok(cursor)
}

/// Aspects, behind `with`.
pub fn behind_with(
    alloc: Global,
    units: &mut Units,
    tokens: &Tokens,
    cursor: Cursor,
    into: &mut Children,
) -> Result<Cursor, Fault>
    requires at { cursor.at ≤ length (lexemes tokens.now) }
    ensures grows { Grows units.old units.new }
    ensures goes { IfOk result (λ next. Forth (lexemes tokens.now) cursor next) }
    ensures reads { (ds : phrases.Children) → Holds units.old into.old ds → Finds (parts.BehindWith ds) (lexemes tokens.now) cursor units.new into.new result }
{
    let mut next = aspect(alloc, units, tokens, cursor, into)?;
    while let Some((_, behind_comma)) = accept(tokens, next, Class::Mark(Mark::Comma))? {
        next = aspect(alloc, units, tokens, behind_comma, into)?;
    }
    Ok(next)
}

/// An aspect.
fn aspect(
    alloc: Global,
    units: &mut Units,
    tokens: &Tokens,
    cursor: Cursor,
    into: &mut Children,
) -> Result<Cursor, Fault>
    requires at { cursor.at ≤ length (lexemes tokens.now) }
    ensures grows { Grows units.old units.new }
    ensures goes { IfOk result (λ next. Forth (lexemes tokens.now) cursor next) }
    ensures reads { (ds : phrases.Children) → Holds units.old into.old ds → Finds (parts.Aspect ds) (lexemes tokens.now) cursor units.new into.new result }
{
    let (name, behind_name) = expect(tokens, cursor, Class::Word)?;
    aspect_of(alloc, units, tokens, behind_name, name, into)
}

/// An aspect, behind its name.
fn aspect_of(
    alloc: Global,
    units: &mut Units,
    tokens: &Tokens,
    cursor: Cursor,
    name: Token,
    into: &mut Children,
) -> Result<Cursor, Fault>
    requires at { cursor.at ≤ length (lexemes tokens.now) }
    ensures grows { Grows units.old units.new }
    ensures goes { IfOk result (λ next. Forth (lexemes tokens.now) cursor next) }
    ensures reads { (ds : phrases.Children) → Holds units.old into.old ds → Finds (parts.AspectOf (aspect_name (lexeme tokens.now.source name).text) (lexeme tokens.now.source name) ds) (lexemes tokens.now) cursor units.new into.new result }
{
    match aspect_name(text(tokens, name)) {
        AspectName::Global => defined(
            alloc,
            units,
            tokens,
            cursor,
            AspectKind::Global,
            Definition::Global,
            name,
            into,
        ),
        AspectName::RefinedGlobal => defined(
            alloc,
            units,
            tokens,
            cursor,
            AspectKind::RefinedGlobal,
            Definition::Global,
            name,
            into,
        ),
        AspectName::Depends => defined(
            alloc,
            units,
            tokens,
            cursor,
            AspectKind::Depends,
            Definition::Depends,
            name,
            into,
        ),
        AspectName::RefinedDepends => defined(
            alloc,
            units,
            tokens,
            cursor,
            AspectKind::RefinedDepends,
            Definition::Depends,
            name,
            into,
        ),
        AspectName::AbstractState => defined(
            alloc,
            units,
            tokens,
            cursor,
            AspectKind::AbstractState,
            Definition::States,
            name,
            into,
        ),
        AspectName::RefinedState => defined(
            alloc,
            units,
            tokens,
            cursor,
            AspectKind::RefinedState,
            Definition::RefinedState,
            name,
            into,
        ),
        AspectName::Initializes => defined(
            alloc,
            units,
            tokens,
            cursor,
            AspectKind::Initializes,
            Definition::Initializes,
            name,
            into,
        ),
        AspectName::PartOf => defined(
            alloc,
            units,
            tokens,
            cursor,
            AspectKind::PartOf,
            Definition::PartOf,
            name,
            into,
        ),
        AspectName::Atomic => atomic(alloc, units, tokens, cursor, name, into),
        AspectName::Skipped => skipped_aspect(
            alloc,
            units,
            tokens,
            cursor,
            AspectKind::Skipped {
                has_definition: true,
            },
            AspectKind::Skipped {
                has_definition: false,
            },
            name,
            into,
        ),
        AspectName::Unknown => skipped_aspect(
            alloc,
            units,
            tokens,
            cursor,
            AspectKind::Unknown {
                has_definition: true,
            },
            AspectKind::Unknown {
                has_definition: false,
            },
            name,
            into,
        ),
    }
}

/// An aspect that has a definition, behind its name.
fn defined(
    alloc: Global,
    units: &mut Units,
    tokens: &Tokens,
    cursor: Cursor,
    kind: AspectKind,
    definition: Definition,
    name: Token,
    into: &mut Children,
) -> Result<Cursor, Fault>
    requires at { cursor.at ≤ length (lexemes tokens.now) }
    ensures grows { Grows units.old units.new }
    ensures goes { IfOk result (λ next. Forth (lexemes tokens.now) cursor next) }
    ensures reads { (ds : phrases.Children) → Holds units.old into.old ds → Finds (parts.Defined kind definition (lexeme tokens.now.source name) ds) (lexemes tokens.now) cursor units.new into.new result }
{
    let (_, behind_arrow) = expect(tokens, cursor, Class::Mark(Mark::Arrow))?;
    let mut own = Children::new(alloc);
    let behind_definition_of = definition_of(
        alloc,
        units,
        tokens,
        behind_arrow,
        definition,
        &mut own,
    )?;
    add_named_aspect(alloc, units, tokens, kind, name, own, into)?;
    Ok(behind_definition_of)
}

/// The aspect Atomic, behind its name.
fn atomic(
    alloc: Global,
    units: &mut Units,
    tokens: &Tokens,
    cursor: Cursor,
    name: Token,
    into: &mut Children,
) -> Result<Cursor, Fault>
    requires at { cursor.at ≤ length (lexemes tokens.now) }
    ensures grows { Grows units.old units.new }
    ensures goes { IfOk result (λ next. Forth (lexemes tokens.now) cursor next) }
    ensures reads { (ds : phrases.Children) → Holds units.old into.old ds → Finds (parts.Atomic (lexeme tokens.now.source name) ds) (lexemes tokens.now) cursor units.new into.new result }
{
    if let Some((_, behind_arrow)) = accept(tokens, cursor, Class::Mark(Mark::Arrow))? {
        let (_, behind_value) = expect(tokens, behind_arrow, Class::True)?;
        let kind = AspectKind::Atomic {
            has_definition: true,
        };
        add_named_aspect(alloc, units, tokens, kind, name, Children::new(alloc), into)?;
        return Ok(behind_value);
    }
    let kind = AspectKind::Atomic {
        has_definition: false,
    };
    add_named_aspect(alloc, units, tokens, kind, name, Children::new(alloc), into)?;
    Ok(cursor)
}

/// An aspect that is read over, behind its name; one with a definition is of the first kind, one alone of the second.
fn skipped_aspect(
    alloc: Global,
    units: &mut Units,
    tokens: &Tokens,
    cursor: Cursor,
    defined: AspectKind,
    alone: AspectKind,
    name: Token,
    into: &mut Children,
) -> Result<Cursor, Fault>
    requires at { cursor.at ≤ length (lexemes tokens.now) }
    ensures grows { Grows units.old units.new }
    ensures goes { IfOk result (λ next. Forth (lexemes tokens.now) cursor next) }
    ensures reads { (ds : phrases.Children) → Holds units.old into.old ds → Finds (parts.SkippedAspect defined alone (lexeme tokens.now.source name) ds) (lexemes tokens.now) cursor units.new into.new result }
{
    if let Some((_, behind_arrow)) = accept(tokens, cursor, Class::Mark(Mark::Arrow))? {
        let behind_skipped_tokens = skipped_tokens(tokens, behind_arrow)?;
        add_named_aspect(
            alloc,
            units,
            tokens,
            defined,
            name,
            Children::new(alloc),
            into,
        )?;
        return Ok(behind_skipped_tokens);
    }
    add_named_aspect(
        alloc,
        units,
        tokens,
        alone,
        name,
        Children::new(alloc),
        into,
    )?;
    Ok(cursor)
}

/// The definition of an aspect.
fn definition_of(
    alloc: Global,
    units: &mut Units,
    tokens: &Tokens,
    cursor: Cursor,
    definition: Definition,
    into: &mut Children,
) -> Result<Cursor, Fault>
    requires at { cursor.at ≤ length (lexemes tokens.now) }
    ensures grows { Grows units.old units.new }
    ensures goes { IfOk result (λ next. Forth (lexemes tokens.now) cursor next) }
    ensures reads { (ds : phrases.Children) → Holds units.old into.old ds → Finds (parts.DefinitionOf definition ds) (lexemes tokens.now) cursor units.new into.new result }
{
    match definition {
        Definition::Global => global_definition(alloc, units, tokens, cursor, into),
        Definition::Depends => depends_definition(alloc, units, tokens, cursor, into),
        Definition::States => states_definition(alloc, units, tokens, cursor, into),
        Definition::RefinedState => refined_definition(alloc, units, tokens, cursor, into),
        Definition::Initializes => initializes_definition(alloc, units, tokens, cursor, into),
        Definition::PartOf => part_of(alloc, units, tokens, cursor, into),
    }
}

/// `null`, a name, or names in parentheses.
fn null_or_items(
    alloc: Global,
    units: &mut Units,
    tokens: &Tokens,
    cursor: Cursor,
    into: &mut Children,
) -> Result<Cursor, Fault>
    requires at { cursor.at ≤ length (lexemes tokens.now) }
    ensures grows { Grows units.old units.new }
    ensures goes { IfOk result (λ next. Forth (lexemes tokens.now) cursor next) }
    ensures reads { (ds : phrases.Children) → Holds units.old into.old ds → Finds (parts.NullOrItems ds) (lexemes tokens.now) cursor units.new into.new result }
{
    if let Some((keyword, behind_keyword)) = accept(
        tokens,
        cursor,
        Class::Reserved(Reserved::Null),
    )? {
        add_aspect(
            units,
            AspectKind::Null,
            keyword.span,
            Children::new(alloc),
            into,
        )?;
        return Ok(behind_keyword);
    }
    if let Some((opening, behind_opening)) = accept(tokens, cursor, Class::Mark(Mark::Open))? {
        let (name, behind_name) = expect(tokens, behind_opening, Class::Word)?;
        return items_from(alloc, units, tokens, behind_name, opening.span, name, into);
    }
    let (name, behind_name_2) = expect(tokens, cursor, Class::Word)?;
    let mut items = Children::new(alloc);
    let behind_whole_name = name_from(alloc, units, tokens, behind_name_2, name, &mut items)?;
    add_aspect(units, AspectKind::Items, name.span, items, into)?;
    Ok(behind_whole_name)
}

/// Names in parentheses, behind the first word. The items stand at the given place.
fn items_from(
    alloc: Global,
    units: &mut Units,
    tokens: &Tokens,
    cursor: Cursor,
    span: Span,
    name: Token,
    into: &mut Children,
) -> Result<Cursor, Fault>
    requires at { cursor.at ≤ length (lexemes tokens.now) }
    ensures grows { Grows units.old units.new }
    ensures goes { IfOk result (λ next. Forth (lexemes tokens.now) cursor next) }
    ensures reads { (ds : phrases.Children) → Holds units.old into.old ds → Finds (parts.ItemsFrom span (lexeme tokens.now.source name) ds) (lexemes tokens.now) cursor units.new into.new result }
{
    let mut items = Children::new(alloc);
    let mut next = name_from(alloc, units, tokens, cursor, name, &mut items)?;
    while let Some((_, behind_comma)) = accept(tokens, next, Class::Mark(Mark::Comma))? {
        let (name, behind_name) = expect(tokens, behind_comma, Class::Word)?;
        next = name_from(alloc, units, tokens, behind_name, name, &mut items)?;
    }
    let (_, behind_end) = expect(tokens, next, Class::Mark(Mark::Close))?;
    add_aspect(units, AspectKind::Items, span, items, into)?;
    Ok(behind_end)
}

/// The definition of a Global.
fn global_definition(
    alloc: Global,
    units: &mut Units,
    tokens: &Tokens,
    cursor: Cursor,
    into: &mut Children,
) -> Result<Cursor, Fault>
    requires at { cursor.at ≤ length (lexemes tokens.now) }
    ensures grows { Grows units.old units.new }
    ensures goes { IfOk result (λ next. Forth (lexemes tokens.now) cursor next) }
    ensures reads { (ds : phrases.Children) → Holds units.old into.old ds → Finds (parts.GlobalDefinition ds) (lexemes tokens.now) cursor units.new into.new result }
{
    if let Some((keyword, behind_keyword)) = accept(
        tokens,
        cursor,
        Class::Reserved(Reserved::Null),
    )? {
        add_aspect(
            units,
            AspectKind::Null,
            keyword.span,
            Children::new(alloc),
            into,
        )?;
        return Ok(behind_keyword);
    }
    if let Some((opening, behind_opening)) = accept(tokens, cursor, Class::Mark(Mark::Open))? {
        let (name, behind_name) = expect(tokens, behind_opening, Class::Word)?;
        return in_global(alloc, units, tokens, behind_name, opening.span, name, into);
    }
    let (name, behind_name_2) = expect(tokens, cursor, Class::Word)?;
    let mut items = Children::new(alloc);
    let behind_whole_name = name_from(alloc, units, tokens, behind_name_2, name, &mut items)?;
    add_aspect(units, AspectKind::Items, name.span, items, into)?;
    Ok(behind_whole_name)
}

/// The modes of a Global with their items, behind the first `=>`.
fn modes_from(
    alloc: Global,
    units: &mut Units,
    tokens: &Tokens,
    cursor: Cursor,
    name: Token,
    into: &mut Children,
) -> Result<Cursor, Fault>
    requires at { cursor.at ≤ length (lexemes tokens.now) }
    ensures grows { Grows units.old units.new }
    ensures goes { IfOk result (λ next. Forth (lexemes tokens.now) cursor next) }
    ensures reads { (ds : phrases.Children) → Holds units.old into.old ds → Finds (parts.ModesFrom (lexeme tokens.now.source name) ds) (lexemes tokens.now) cursor units.new into.new result }
{
    let mut items = Children::new(alloc);
    let behind_null_or_items = null_or_items(alloc, units, tokens, cursor, &mut items)?;
    let kind = AspectKind::Mode {
        mode: mode_named(tokens, name),
    };
    add_named_aspect(alloc, units, tokens, kind, name, items, into)?;
    let mut next = behind_null_or_items;
    while let Some((_, behind_comma)) = accept(tokens, next, Class::Mark(Mark::Comma))? {
        let (name, behind_name) = expect(tokens, behind_comma, Class::Mode)?;
        let (_, behind_arrow) = expect(tokens, behind_name, Class::Mark(Mark::Arrow))?;
        let mut items = Children::new(alloc);
        let behind_null_or_items_2 = null_or_items(alloc, units, tokens, behind_arrow, &mut items)?;
        let kind = AspectKind::Mode {
            mode: mode_named(tokens, name),
        };
        add_named_aspect(alloc, units, tokens, kind, name, items, into)?;
        next = behind_null_or_items_2;
    }
    let (_, behind_end) = expect(tokens, next, Class::Mark(Mark::Close))?;
    Ok(behind_end)
}

/// The definition of a Depends.
fn depends_definition(
    alloc: Global,
    units: &mut Units,
    tokens: &Tokens,
    cursor: Cursor,
    into: &mut Children,
) -> Result<Cursor, Fault>
    requires at { cursor.at ≤ length (lexemes tokens.now) }
    ensures grows { Grows units.old units.new }
    ensures goes { IfOk result (λ next. Forth (lexemes tokens.now) cursor next) }
    ensures reads { (ds : phrases.Children) → Holds units.old into.old ds → Finds (parts.DependsDefinition ds) (lexemes tokens.now) cursor units.new into.new result }
{
    if let Some((keyword, behind_keyword)) = accept(
        tokens,
        cursor,
        Class::Reserved(Reserved::Null),
    )? {
        add_aspect(
            units,
            AspectKind::Null,
            keyword.span,
            Children::new(alloc),
            into,
        )?;
        return Ok(behind_keyword);
    }
    let (_, behind_opening) = expect(tokens, cursor, Class::Mark(Mark::Open))?;
    elements(
        alloc,
        units,
        tokens,
        behind_opening,
        Listing::Dependencies,
        into,
    )
}

/// Elements in parentheses, behind the first one's parenthesis.
fn elements(
    alloc: Global,
    units: &mut Units,
    tokens: &Tokens,
    cursor: Cursor,
    of: Listing,
    into: &mut Children,
) -> Result<Cursor, Fault>
    requires at { cursor.at ≤ length (lexemes tokens.now) }
    ensures grows { Grows units.old units.new }
    ensures goes { IfOk result (λ next. Forth (lexemes tokens.now) cursor next) }
    ensures reads { (ds : phrases.Children) → Holds units.old into.old ds → Finds (parts.Elements of ds) (lexemes tokens.now) cursor units.new into.new result }
{
    let mut next = element(alloc, units, tokens, cursor, of, into)?;
    while let Some((_, behind_comma)) = accept(tokens, next, Class::Mark(Mark::Comma))? {
        next = element(alloc, units, tokens, behind_comma, of, into)?;
    }
    let (_, behind_end) = expect(tokens, next, Class::Mark(Mark::Close))?;
    Ok(behind_end)
}

/// An element of a list in parentheses.
fn element(
    alloc: Global,
    units: &mut Units,
    tokens: &Tokens,
    cursor: Cursor,
    of: Listing,
    into: &mut Children,
) -> Result<Cursor, Fault>
    requires at { cursor.at ≤ length (lexemes tokens.now) }
    ensures grows { Grows units.old units.new }
    ensures goes { IfOk result (λ next. Forth (lexemes tokens.now) cursor next) }
    ensures reads { (ds : phrases.Children) → Holds units.old into.old ds → Finds (parts.Element of ds) (lexemes tokens.now) cursor units.new into.new result }
{
    match of {
        Listing::Dependencies => dependency(alloc, units, tokens, cursor, into),
        Listing::Refinements => refinement(alloc, units, tokens, cursor, into),
        Listing::Initializations => initialization(alloc, units, tokens, cursor, into),
    }
}

/// `N => N` of a Depends. It stands at its arrow.
fn dependency(
    alloc: Global,
    units: &mut Units,
    tokens: &Tokens,
    cursor: Cursor,
    into: &mut Children,
) -> Result<Cursor, Fault>
    requires at { cursor.at ≤ length (lexemes tokens.now) }
    ensures grows { Grows units.old units.new }
    ensures goes { IfOk result (λ next. Forth (lexemes tokens.now) cursor next) }
    ensures reads { (ds : phrases.Children) → Holds units.old into.old ds → Finds (parts.Dependency ds) (lexemes tokens.now) cursor units.new into.new result }
{
    let mut sides = Children::new(alloc);
    let behind_null_or_items = null_or_items(alloc, units, tokens, cursor, &mut sides)?;
    let (arrow, behind_arrow) = expect(tokens, behind_null_or_items, Class::Mark(Mark::Arrow))?;
    if let Some((_, behind_plus)) = accept(tokens, behind_arrow, Class::Mark(Mark::Plus))? {
        let behind_null_or_items_2 = null_or_items(alloc, units, tokens, behind_plus, &mut sides)?;
        let kind = AspectKind::Dependency { has_plus: true };
        add_aspect(units, kind, arrow.span, sides, into)?;
        return Ok(behind_null_or_items_2);
    }
    let behind_null_or_items_3 = null_or_items(alloc, units, tokens, behind_arrow, &mut sides)?;
    let kind = AspectKind::Dependency { has_plus: false };
    add_aspect(units, kind, arrow.span, sides, into)?;
    Ok(behind_null_or_items_3)
}

/// `N => N` of a Refined_State.
fn refinement(
    alloc: Global,
    units: &mut Units,
    tokens: &Tokens,
    cursor: Cursor,
    into: &mut Children,
) -> Result<Cursor, Fault>
    requires at { cursor.at ≤ length (lexemes tokens.now) }
    ensures grows { Grows units.old units.new }
    ensures goes { IfOk result (λ next. Forth (lexemes tokens.now) cursor next) }
    ensures reads { (ds : phrases.Children) → Holds units.old into.old ds → Finds (parts.Refinement ds) (lexemes tokens.now) cursor units.new into.new result }
{
    let (name, behind_name) = expect(tokens, cursor, Class::Word)?;
    let mut sides = Children::new(alloc);
    let behind_whole_name = name_from(alloc, units, tokens, behind_name, name, &mut sides)?;
    let (_, behind_arrow) = expect(tokens, behind_whole_name, Class::Mark(Mark::Arrow))?;
    let behind_null_or_items = null_or_items(alloc, units, tokens, behind_arrow, &mut sides)?;
    add_aspect(units, AspectKind::Refinement, name.span, sides, into)?;
    Ok(behind_null_or_items)
}

/// `N` or `N => N` of an Initializes.
fn initialization(
    alloc: Global,
    units: &mut Units,
    tokens: &Tokens,
    cursor: Cursor,
    into: &mut Children,
) -> Result<Cursor, Fault>
    requires at { cursor.at ≤ length (lexemes tokens.now) }
    ensures grows { Grows units.old units.new }
    ensures goes { IfOk result (λ next. Forth (lexemes tokens.now) cursor next) }
    ensures reads { (ds : phrases.Children) → Holds units.old into.old ds → Finds (parts.Initialization ds) (lexemes tokens.now) cursor units.new into.new result }
{
    let (name, behind_name) = expect(tokens, cursor, Class::Word)?;
    let mut sides = Children::new(alloc);
    let behind_whole_name = name_from(alloc, units, tokens, behind_name, name, &mut sides)?;
    if let Some((_, behind_arrow)) = accept(tokens, behind_whole_name, Class::Mark(Mark::Arrow))? {
        let behind_null_or_items = null_or_items(alloc, units, tokens, behind_arrow, &mut sides)?;
        let kind = AspectKind::Initialized { has_inputs: true };
        add_aspect(units, kind, name.span, sides, into)?;
        return Ok(behind_null_or_items);
    }
    let kind = AspectKind::Initialized { has_inputs: false };
    add_aspect(units, kind, name.span, sides, into)?;
    Ok(behind_whole_name)
}

/// The definition of a Refined_State.
fn refined_definition(
    alloc: Global,
    units: &mut Units,
    tokens: &Tokens,
    cursor: Cursor,
    into: &mut Children,
) -> Result<Cursor, Fault>
    requires at { cursor.at ≤ length (lexemes tokens.now) }
    ensures grows { Grows units.old units.new }
    ensures goes { IfOk result (λ next. Forth (lexemes tokens.now) cursor next) }
    ensures reads { (ds : phrases.Children) → Holds units.old into.old ds → Finds (parts.RefinedDefinition ds) (lexemes tokens.now) cursor units.new into.new result }
{
    let (_, behind_opening) = expect(tokens, cursor, Class::Mark(Mark::Open))?;
    elements(
        alloc,
        units,
        tokens,
        behind_opening,
        Listing::Refinements,
        into,
    )
}

/// The definition of an Initializes.
fn initializes_definition(
    alloc: Global,
    units: &mut Units,
    tokens: &Tokens,
    cursor: Cursor,
    into: &mut Children,
) -> Result<Cursor, Fault>
    requires at { cursor.at ≤ length (lexemes tokens.now) }
    ensures grows { Grows units.old units.new }
    ensures goes { IfOk result (λ next. Forth (lexemes tokens.now) cursor next) }
    ensures reads { (ds : phrases.Children) → Holds units.old into.old ds → Finds (parts.InitializesDefinition ds) (lexemes tokens.now) cursor units.new into.new result }
{
    if let Some((keyword, behind_keyword)) = accept(
        tokens,
        cursor,
        Class::Reserved(Reserved::Null),
    )? {
        add_aspect(
            units,
            AspectKind::Null,
            keyword.span,
            Children::new(alloc),
            into,
        )?;
        return Ok(behind_keyword);
    }
    if let Some((_, behind_opening)) = accept(tokens, cursor, Class::Mark(Mark::Open))? {
        let listing = Listing::Initializations;
        return elements(alloc, units, tokens, behind_opening, listing, into);
    }
    let (name, behind_name) = expect(tokens, cursor, Class::Word)?;
    let mut item = Children::new(alloc);
    let behind_whole_name = name_from(alloc, units, tokens, behind_name, name, &mut item)?;
    let kind = AspectKind::Initialized { has_inputs: false };
    add_aspect(units, kind, name.span, item, into)?;
    Ok(behind_whole_name)
}

/// The name of a Part_Of.
fn part_of(
    alloc: Global,
    units: &mut Units,
    tokens: &Tokens,
    cursor: Cursor,
    into: &mut Children,
) -> Result<Cursor, Fault>
    requires at { cursor.at ≤ length (lexemes tokens.now) }
    ensures grows { Grows units.old units.new }
    ensures goes { IfOk result (λ next. Forth (lexemes tokens.now) cursor next) }
    ensures reads { (ds : phrases.Children) → Holds units.old into.old ds → Finds (parts.PartOf ds) (lexemes tokens.now) cursor units.new into.new result }
{
    let (name, behind_name) = expect(tokens, cursor, Class::Word)?;
    let behind_whole_name = name_from(alloc, units, tokens, behind_name, name, into)?;
    Ok(behind_whole_name)
}

/// The definition of an Abstract_State.
fn states_definition(
    alloc: Global,
    units: &mut Units,
    tokens: &Tokens,
    cursor: Cursor,
    into: &mut Children,
) -> Result<Cursor, Fault>
    requires at { cursor.at ≤ length (lexemes tokens.now) }
    ensures grows { Grows units.old units.new }
    ensures goes { IfOk result (λ next. Forth (lexemes tokens.now) cursor next) }
    ensures reads { (ds : phrases.Children) → Holds units.old into.old ds → Finds (parts.StatesDefinition ds) (lexemes tokens.now) cursor units.new into.new result }
{
    if let Some((_, behind_keyword)) = accept(tokens, cursor, Class::Reserved(Reserved::Null))? {
        return Ok(behind_keyword);
    }
    if let Some((name, behind_name)) = accept(tokens, cursor, Class::Word)? {
        let kind = DeclKind::State { has_options: false };
        declare(alloc, units, tokens, kind, name, Children::new(alloc), into)?;
        return Ok(behind_name);
    }
    let (_, behind_opening) = expect(tokens, cursor, Class::Mark(Mark::Open))?;
    in_states(alloc, units, tokens, behind_opening, into)
}

/// States in parentheses, behind the parenthesis.
fn in_states(
    alloc: Global,
    units: &mut Units,
    tokens: &Tokens,
    cursor: Cursor,
    into: &mut Children,
) -> Result<Cursor, Fault>
    requires at { cursor.at ≤ length (lexemes tokens.now) }
    ensures grows { Grows units.old units.new }
    ensures goes { IfOk result (λ next. Forth (lexemes tokens.now) cursor next) }
    ensures reads { (ds : phrases.Children) → Holds units.old into.old ds → Finds (parts.InStates ds) (lexemes tokens.now) cursor units.new into.new result }
{
    if let Some((name, behind_name)) = accept(tokens, cursor, Class::Word)? {
        if let Some((_, behind_keyword)) = accept(
            tokens,
            behind_name,
            Class::Reserved(Reserved::With),
        )? {
            let behind_balanced = balanced(tokens, behind_keyword)?;
            let kind = DeclKind::State { has_options: true };
            declare(alloc, units, tokens, kind, name, Children::new(alloc), into)?;
            return Ok(behind_balanced);
        }
        let kind = DeclKind::State { has_options: false };
        declare(alloc, units, tokens, kind, name, Children::new(alloc), into)?;
        return more_states(alloc, units, tokens, behind_name, into);
    }
    let (_, behind_opening) = expect(tokens, cursor, Class::Mark(Mark::Open))?;
    let behind_state_with_options = state_with_options(alloc, units, tokens, behind_opening, into)?;
    more_states(alloc, units, tokens, behind_state_with_options, into)
}

/// The further states.
fn more_states(
    alloc: Global,
    units: &mut Units,
    tokens: &Tokens,
    cursor: Cursor,
    into: &mut Children,
) -> Result<Cursor, Fault>
    requires at { cursor.at ≤ length (lexemes tokens.now) }
    ensures grows { Grows units.old units.new }
    ensures goes { IfOk result (λ next. Forth (lexemes tokens.now) cursor next) }
    ensures reads { (ds : phrases.Children) → Holds units.old into.old ds → Finds (parts.MoreStates ds) (lexemes tokens.now) cursor units.new into.new result }
{
    let mut next = cursor;
    while let Some((_, behind_comma)) = accept(tokens, next, Class::Mark(Mark::Comma))? {
        next = state(alloc, units, tokens, behind_comma, into)?;
    }
    let (_, behind_end) = expect(tokens, next, Class::Mark(Mark::Close))?;
    Ok(behind_end)
}

/// A state.
fn state(
    alloc: Global,
    units: &mut Units,
    tokens: &Tokens,
    cursor: Cursor,
    into: &mut Children,
) -> Result<Cursor, Fault>
    requires at { cursor.at ≤ length (lexemes tokens.now) }
    ensures grows { Grows units.old units.new }
    ensures goes { IfOk result (λ next. Forth (lexemes tokens.now) cursor next) }
    ensures reads { (ds : phrases.Children) → Holds units.old into.old ds → Finds (parts.State ds) (lexemes tokens.now) cursor units.new into.new result }
{
    if let Some((name, behind_name)) = accept(tokens, cursor, Class::Word)? {
        let kind = DeclKind::State { has_options: false };
        declare(alloc, units, tokens, kind, name, Children::new(alloc), into)?;
        return Ok(behind_name);
    }
    let (_, behind_opening) = expect(tokens, cursor, Class::Mark(Mark::Open))?;
    state_with_options(alloc, units, tokens, behind_opening, into)
}

/// A state with options, behind its parenthesis.
fn state_with_options(
    alloc: Global,
    units: &mut Units,
    tokens: &Tokens,
    cursor: Cursor,
    into: &mut Children,
) -> Result<Cursor, Fault>
    requires at { cursor.at ≤ length (lexemes tokens.now) }
    ensures grows { Grows units.old units.new }
    ensures goes { IfOk result (λ next. Forth (lexemes tokens.now) cursor next) }
    ensures reads { (ds : phrases.Children) → Holds units.old into.old ds → Finds (parts.StateWithOptions ds) (lexemes tokens.now) cursor units.new into.new result }
{
    let (name, behind_name) = expect(tokens, cursor, Class::Word)?;
    let (_, behind_keyword) = expect(tokens, behind_name, Class::Reserved(Reserved::With))?;
    let behind_balanced = balanced(tokens, behind_keyword)?;
    let kind = DeclKind::State { has_options: true };
    declare(alloc, units, tokens, kind, name, Children::new(alloc), into)?;
    Ok(behind_balanced)
}

/// What is read over of an aspect's definition: up to a comma, a semicolon or the word `is` outside parentheses.
fn skipped_tokens(tokens: &Tokens, cursor: Cursor) -> Result<Cursor, Fault>
    requires at { cursor.at ≤ length (lexemes tokens.now) }
    ensures { Skips parts.SkippedTokens (lexemes tokens.now) cursor result }
{
    let mut next = cursor;
    loop {
        if let Some((_, behind)) = accept(tokens, next, Class::Skipped)? {
            next = behind;
            continue;
        }
        let Some((_, behind)) = accept(tokens, next, Class::Mark(Mark::Open))? else {
            return Ok(next);
        };
        next = balanced(tokens, behind)?;
    }
}

/// Whether a token names the mode of a Global.
fn names_mode(tokens: &Tokens, name: Token) -> bool
    ensures { result ≡ names_mode (text_of tokens.now.source name) }
{
    match mode_of(text(tokens, name)) {
        Some(_) => true,
        None => false,
    }
}

/// The mode that a token names; Input if it names none.
fn mode_named(tokens: &Tokens, name: Token) -> GlobalMode
    ensures { result ≡ mode_named (text_of tokens.now.source name) }
{
    match mode_of(text(tokens, name)) {
        Some(mode) => mode,
        None => GlobalMode::Input,
    }
}

/// What stands in the parentheses of a Global, behind its first word.
fn in_global(
    alloc: Global,
    units: &mut Units,
    tokens: &Tokens,
    cursor: Cursor,
    span: Span,
    name: Token,
    into: &mut Children,
) -> Result<Cursor, Fault>
    requires at { cursor.at ≤ length (lexemes tokens.now) }
    ensures grows { Grows units.old units.new }
    ensures goes { IfOk result (λ next. Forth (lexemes tokens.now) cursor next) }
    ensures reads { (ds : phrases.Children) → Holds units.old into.old ds → Finds (parts.InGlobal span (lexeme tokens.now.source name) ds) (lexemes tokens.now) cursor units.new into.new result }
{
    if !names_mode(tokens, name) {
        return items_from(alloc, units, tokens, cursor, span, name, into);
    }
    if let Some((_, behind_arrow)) = accept(tokens, cursor, Class::Mark(Mark::Arrow))? {
        return modes_from(alloc, units, tokens, behind_arrow, name, into);
    }
    items_from(alloc, units, tokens, cursor, span, name, into)
}

pub fn balanced(tokens: &Tokens, cursor: Cursor) -> Result<Cursor, Fault>
    requires at { cursor.at ≤ length (lexemes tokens.now) }
    ensures { Skips (parts.Balanced 0) (lexemes tokens.now) cursor result }
{
    let mut next = cursor;
    let mut depth: usize = 0;
    loop {
        if let Some((_, behind)) = accept(tokens, next, Class::Enclosed)? {
            next = behind;
            continue;
        }
        if let Some((_, behind)) = accept(tokens, next, Class::Mark(Mark::Open))? {
            next = behind;
            depth += 1;
            continue;
        }
        let (_, behind) = expect(tokens, next, Class::Mark(Mark::Close))?;
        if depth == 0 {
            return Ok(behind);
        }
        next = behind;
        depth -= 1;
    }
}
