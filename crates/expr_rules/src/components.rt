//! The components of a record that get their values by name.
ghost use Rattle.std.specs.Prelude.{◌≡◌, ◌++◌, drop, slice_get, map, replicate, IfOk, OnOk, Some};
ghost use Rattle.std.specs.Option.{option_copied};
ghost use Rattle.ada_forms.specs.Forms.{expr_of};
ghost use Rattle.expr_outlines.specs.Outlines as outlines;
ghost use Rattle.expr_rules.specs.Aggregates as spec;
ghost use Rattle.expr_rules.specs.Kept.{taken_of};
ghost use Rattle.name_findings.specs.Findings.{add_all};
ghost use Rattle.part_slots.specs.Records as records;
ghost use Rattle.part_slots.specs.declared.slots.Pairing.TheVariants.{ForElements as for_elements};

use ada_forms::{ExprForm, expr_form};
use ada_tree::Units;
use indexmap::IndexSet;
use name_findings::Findings;
use name_keys::KeyMap;
use part_slots::Pairing;
use seen_names::Tables;
use seen_types::{FieldSeen, Shape};
use spark_base::{ExprNo, Items, NoMemory, Pos, TypeNo};
use spark_messages::Code;
use std::alloc::Global;
use value_rules::refuse_silent;

/// Where an expression begins.
pub fn begins(units: &Units, e: ExprNo) -> Pos
    ensures { result ≡ outlines.begins (expr_of units.now.exprs e) }
{
    let mut at = e;
    loop {
        let formed = expr_form(units, at);
        at = match formed.form {
            ExprForm::Selected { prefix, .. }
            | ExprForm::Applied { prefix, .. }
            | ExprForm::Attribute { prefix, .. }
            | ExprForm::RangeAttribute { prefix, .. } => prefix,
            ExprForm::Qualified { mark, .. }
            | ExprForm::Indication { mark }
            | ExprForm::Constrained { mark, .. } => mark,
            ExprForm::Argument { value }
            | ExprForm::NamedArgument { value, .. }
            | ExprForm::InRange { value, .. }
            | ExprForm::InMark { value, .. }
            | ExprForm::ValueChoice { value } => value,
            ExprForm::Binary { left, .. } => left,
            ExprForm::Association { first, .. } => first,
            ExprForm::RangeChoice { low, .. } | ExprForm::BoundsRange { low, .. } => low,
            ExprForm::SubtypeRange { subtype } => subtype,
            ExprForm::AttributeRange { attribute } => attribute,
            ExprForm::Absent => return Pos { line: 1, col: 1 },
            _ => return formed.at,
        };
    }
}

/// The choices of an association.
#[tactic(auto, using(crate::proofs::Steps::front_trees))]
fn choices_of(alloc: Global, units: &Units, pair: ExprNo) -> Result<Vec<ExprNo>, NoMemory>
    ensures { IfOk result (λ v. map (expr_of units.now.exprs) v.items ≡ outlines.choices_of (expr_of units.now.exprs pair)) }
{
    match expr_form(units, pair).form {
        ExprForm::Association { first, rest } => all_but_last(alloc, first, rest),
        _ => Ok(Vec::new(alloc)),
    }
}

/// All of a list but the last.
fn all_but_last(alloc: Global, first: ExprNo, rest: &[ExprNo]) -> Result<Vec<ExprNo>, NoMemory>
    ensures { IfOk result (λ v. v.items ≡ spec.all_but_last first rest.now) }
{
    let mut front = Vec::new(alloc);
    let mut last = first;
    for next in rest {
        front.push(last)?;
        last = *next;
    }
    Ok(front)
}

/// The place of the component that a choice names.
fn place_chosen(
    units: &Units,
    tables: &Tables,
    fields: &KeyMap<FieldSeen>,
    choice: ExprNo,
) -> Option<usize>
    ensures { result ≡ records.place_chosen tables.now fields.now (expr_of units.now.exprs choice) }
{
    let ExprForm::ValueChoice { value } = expr_form(units, choice).form else {
        return None;
    };
    match expr_form(units, value).form {
        ExprForm::Identifier(name) => match tables.key_of(name) {
            None => None,
            Some(key) => fields.place_of(key),
        },
        _ => None,
    }
}

fn is_others(units: &Units, choice: ExprNo) -> bool
    ensures { result ≡ records.is_others (expr_of units.now.exprs choice) }
{
    match expr_form(units, choice).form {
        ExprForm::OthersChoice => true,
        _ => false,
    }
}

/// Adds the type of the component at a place, if there is one.
fn add_type(
    types: &mut Items<TypeNo>,
    fields: &KeyMap<FieldSeen>,
    place: usize,
) -> Result<(), NoMemory>
    ensures { OnOk result (types.new ≡ types.old ++ records.type_at fields.now place) }
{
    if let Some((_, field)) = fields.at(place) {
        types.push(field.of)?;
    }
    Ok(())
}

/// The components that have their values.
#[derive(Debug, Drop)]
struct Components {
    /// Their places, in the order in which they got them.
    places: IndexSet<usize>,
    /// Behind `others`.
    is_closed: bool,
    /// No choice names what is no component.
    is_clear: bool,
}

fn no_components(alloc: Global) -> Components
    ensures { taken_of result ≡ records.nothing_taken }
{
    Components {
        places: IndexSet::new(alloc),
        is_closed: false,
        is_clear: true,
    }
}

impl Components {
    fn add_place(&mut self, place: Option<usize>) -> Result<(), NoMemory>
        ensures { OnOk result (taken_of self.new ≡ records.with_place (taken_of self.old) place) }
    {
        match place {
            None => self.is_clear = false,
            Some(place) => {
                let _ = self.places.insert(place)?;
            }
        }
        Ok(())
    }

    /// Adds all that are left.
    fn add_rest(&mut self, fields: &KeyMap<FieldSeen>) -> Result<(), NoMemory>
        ensures { OnOk result (taken_of self.new ≡ records.with_rest fields.now (taken_of self.old)) }
    {
        self.is_closed = true;
        for place in 0..fields.len() {
            self.add_place(Some(place))?;
        }
        Ok(())
    }

    /// Adds what a choice names.
    fn add(
        &mut self,
        units: &Units,
        tables: &Tables,
        fields: &KeyMap<FieldSeen>,
        choice: ExprNo,
    ) -> Result<(), NoMemory>
        ensures { OnOk result (taken_of self.new ≡ records.with_component tables.now fields.now (taken_of self.old) (expr_of units.now.exprs choice)) }
    {
        if self.is_closed {
            Ok(())
        } else if is_others(units, choice) {
            self.add_rest(fields)
        } else {
            self.add_place(place_chosen(units, tables, fields, choice))
        }
    }

    fn add_all(
        &mut self,
        units: &Units,
        tables: &Tables,
        fields: &KeyMap<FieldSeen>,
        choices: &[ExprNo],
    ) -> Result<(), NoMemory>
        ensures { OnOk result (taken_of self.new ≡ records.taken_by tables.now fields.now (taken_of self.old) (map (expr_of units.now.exprs) choices.now)) }
    {
        for choice in choices {
            self.add(units, tables, fields, *choice)?;
        }
        Ok(())
    }

    /// The place of the component that got its value behind so many others.
    fn place_at(&self, k: usize) -> Option<usize>
        ensures { result ≡ slice_get self.now.places.keys k }
    {
        match self.places.get_index(k) {
            None => None,
            Some(place) => Some(*place),
        }
    }

    /// The types of those that came behind the first so many.
    fn types_behind(
        &self,
        alloc: Global,
        fields: &KeyMap<FieldSeen>,
        count: usize,
    ) -> Result<Items<TypeNo>, NoMemory>
        ensures { IfOk result (λ ts. ts ≡ records.types_at fields.now (drop count self.now.places.keys)) }
    {
        let mut types = Items::new(alloc);
        for k in count..self.places.len() {
            if let Some(place) = self.place_at(k) {
                add_type(&mut types, fields, place)?;
            }
        }
        Ok(types)
    }

    /// What a choice breaks: Y09 of one behind others, and of a component that has its value; Y06 of what is no component.
    fn refuse(
        &self,
        units: &Units,
        tables: &Tables,
        found: &mut Findings,
        fields: &KeyMap<FieldSeen>,
        choice: ExprNo,
    )
        ensures { found.new ≡ add_all found.old (spec.component_found tables.now fields.now (taken_of self.now) (expr_of units.now.exprs choice)) }
    {
        let at = begins(units, choice);
        if self.is_closed {
            refuse_silent(found, true, Code::Y09, at);
        } else if !is_others(units, choice) {
            match place_chosen(units, tables, fields, choice) {
                None => refuse_silent(found, true, Code::Y06, at),
                Some(place) => refuse_silent(found, self.places.contains(&place), Code::Y09, at),
            }
        }
    }

    /// What choices break in turn, with what they add.
    #[tactic(auto, using(name_findings::proofs::Joined::add_append))]
    fn refuse_all(
        &mut self,
        units: &Units,
        tables: &Tables,
        found: &mut Findings,
        fields: &KeyMap<FieldSeen>,
        choices: &[ExprNo],
    ) -> Result<(), NoMemory>
        ensures taken { OnOk result (taken_of self.new ≡ records.taken_by tables.now fields.now (taken_of self.old) (map (expr_of units.now.exprs) choices.now)) }
        ensures found { OnOk result (found.new ≡ add_all found.old (spec.components_found tables.now fields.now (taken_of self.old) (map (expr_of units.now.exprs) choices.now))) }
    {
        for choice in choices {
            self.refuse(units, tables, found, fields, *choice);
            self.add(units, tables, fields, *choice)?;
        }
        Ok(())
    }

    /// Adds what the choices of an association name.
    fn add_pair(
        &mut self,
        alloc: Global,
        units: &Units,
        tables: &Tables,
        fields: &KeyMap<FieldSeen>,
        pair: ExprNo,
    ) -> Result<(), NoMemory>
        ensures { OnOk result (taken_of self.new ≡ records.taken_by tables.now fields.now (taken_of self.old) (outlines.choices_of (expr_of units.now.exprs pair))) }
    {
        let choices = choices_of(alloc, units, pair)?;
        self.add_all(units, tables, fields, choices.as_slice())
    }

    /// What the choices of an association break, with what they add.
    fn refuse_pair(
        &mut self,
        alloc: Global,
        units: &Units,
        tables: &Tables,
        found: &mut Findings,
        fields: &KeyMap<FieldSeen>,
        pair: ExprNo,
    ) -> Result<(), NoMemory>
        ensures taken { OnOk result (taken_of self.new ≡ records.taken_by tables.now fields.now (taken_of self.old) (outlines.choices_of (expr_of units.now.exprs pair))) }
        ensures found { OnOk result (found.new ≡ add_all found.old (spec.components_found tables.now fields.now (taken_of self.old) (outlines.choices_of (expr_of units.now.exprs pair)))) }
    {
        let choices = choices_of(alloc, units, pair)?;
        self.refuse_all(units, tables, found, fields, choices.as_slice())
    }
}

/// What the associations of a record aggregate break: what each choice does, and Y09 of components without a value, at the
/// parenthesis. It takes constant time for each choice.
#[tactic(auto, using(name_findings::proofs::Joined::add_append))]
pub fn refuse_components(
    alloc: Global,
    units: &Units,
    tables: &Tables,
    found: &mut Findings,
    at: Pos,
    fields: &KeyMap<FieldSeen>,
    pairs: &[ExprNo],
) -> Result<(), NoMemory>
    ensures { OnOk result (found.new ≡ add_all found.old (spec.associations_found tables.now fields.now at records.nothing_taken (map (expr_of units.now.exprs) pairs.now))) }
{
    let mut taken = no_components(alloc);
    for pair in pairs {
        taken.refuse_pair(alloc, units, tables, found, fields, *pair)?;
    }
    let are_missing = taken.is_clear && taken.places.len() < fields.len();
    refuse_silent(found, are_missing, Code::Y09, at);
    Ok(())
}

fn component_pairings(
    alloc: Global,
    units: &Units,
    tables: &Tables,
    fields: &KeyMap<FieldSeen>,
    pairs: &[ExprNo],
) -> Result<Items<Pairing>, NoMemory>
    ensures { IfOk result (λ ps. ps ≡ records.component_pairings tables.now fields.now records.nothing_taken (map (expr_of units.now.exprs) pairs.now)) }
{
    let mut pairings = Items::new(alloc);
    let mut taken = no_components(alloc);
    for pair in pairs {
        let before = taken.places.len();
        taken.add_pair(alloc, units, tables, fields, *pair)?;
        pairings.push(Pairing::ForComponents(taken.types_behind(alloc, fields, before)?))?;
    }
    Ok(pairings)
}

fn element_pairings(
    alloc: Global,
    index: TypeNo,
    of: TypeNo,
    count: usize,
) -> Result<Items<Pairing>, NoMemory>
    ensures { IfOk result (λ ps. ps ≡ replicate count (for_elements index of)) }
{
    let mut pairings = Items::new(alloc);
    for _ in 0..count {
        pairings.push(Pairing::ForElements(index, of))?;
    }
    Ok(pairings)
}

/// How the associations of an aggregate are read, by what is expected of it: for which components, or for elements.
#[tactic(auto, unfolding(part_slots::specs::Records::pairings_for))]
pub fn pairings_for(
    alloc: Global,
    units: &Units,
    tables: &Tables,
    shape: Option<&Shape>,
    pairs: &[ExprNo],
) -> Result<Items<Pairing>, NoMemory>
    ensures { IfOk result (λ ps. ps ≡ records.pairings_for tables.now (option_copied shape.entry) (map (expr_of units.now.exprs) pairs.now)) }
{
    match shape {
        Some(Shape::Fields(fields)) => component_pairings(alloc, units, tables, fields, pairs),
        Some(Shape::Array { index, of }) => element_pairings(alloc, *index, *of, pairs.len()),
        _ => Ok(Items::new(alloc)),
    }
}
