//! The forms of declarations: a node with its children by name.
ghost use Rattle.std.specs.Prelude.{◌≡◌, ◌<◌, All, map, Some};
ghost use Rattle.spark_base.specs.declared.numbers.DeclNo.{DeclNo as DeclNumber};
ghost use Rattle.spark_base.specs.declared.numbers.ExprNo.{ExprNo as Number};
ghost use Rattle.spark_base.specs.declared.numbers.Pos.{Pos as Place};
ghost use Rattle.ada_forms.specs.declared.declarations.DeclForm.TheVariants.{Absent as absent_form};
ghost use Rattle.ada_forms.specs.Declarations as spec;
ghost use Rattle.ada_forms.specs.Declarations.{AreDeclsBelow, decl_of, decl_tree};
ghost use Rattle.ada_forms.specs.Forms.{Expr as Tree, expr_of};

use ada_tree::{DeclKind, DeclNode, Head, Units};
use spark_base::{DeclNo, ExprNo, Name, Pos, StmtNo};

/// A declaration with its children by name. Where formals stand among the declarations, they come first.
#[derive(Clone, Copy, Debug)]
pub enum DeclForm<'a> {
    With {
        units: &'a [ExprNo],
    },
    ContextUse {
        is_type: bool,
        units: &'a [ExprNo],
    },
    Use {
        is_type: bool,
        units: &'a [ExprNo],
    },
    PrivatePart {
        decls: &'a [DeclNo],
    },
    EnumerationType {
        name: &'a Name,
        literals: &'a [DeclNo],
    },
    EnumerationLiteral {
        name: &'a Name,
    },
    RangeType {
        name: &'a Name,
        low: ExprNo,
        high: ExprNo,
    },
    ModularType {
        name: &'a Name,
        modulus: ExprNo,
    },
    /// The discrete range, and the mark of the elements.
    ArrayType {
        name: &'a Name,
        index: ExprNo,
        element: ExprNo,
    },
    NullRecordType {
        name: &'a Name,
    },
    PrivateType {
        name: &'a Name,
    },
    RecordType {
        name: &'a Name,
        components: &'a [DeclNo],
    },
    Component {
        name: &'a Name,
        subtype: ExprNo,
        preset: Option<ExprNo>,
    },
    Subtype {
        name: &'a Name,
        subtype: ExprNo,
    },
    Object {
        name: &'a Name,
        is_constant: bool,
        subtype: ExprNo,
        value: Option<ExprNo>,
    },
    NamedNumber {
        name: &'a Name,
        value: ExprNo,
    },
    Formal {
        name: &'a Name,
        is_in: bool,
        is_out: bool,
        mark: ExprNo,
    },
    /// The mark of the result is that of a function.
    Subprogram {
        name: &'a Name,
        is_null: bool,
        formals: &'a [DeclNo],
        result_mark: Option<ExprNo>,
    },
    ExpressionFunction {
        name: &'a Name,
        formals: &'a [DeclNo],
        mark: ExprNo,
        value: ExprNo,
    },
    /// The formals, and the local declarations behind them.
    SubprogramBody {
        name: &'a Name,
        decls: &'a [DeclNo],
        result_mark: Option<ExprNo>,
        body: StmtNo,
        end: Option<ExprNo>,
    },
    Task {
        name: &'a Name,
        is_type: bool,
        end: Option<ExprNo>,
    },
    TaskBody {
        name: &'a Name,
        decls: &'a [DeclNo],
        body: StmtNo,
        end: Option<ExprNo>,
    },
    Protected {
        name: &'a Name,
        is_type: bool,
        decls: &'a [DeclNo],
        end: Option<ExprNo>,
    },
    ProtectedSubprogram {
        name: &'a Name,
        formals: &'a [DeclNo],
        result_mark: Option<ExprNo>,
    },
    Entry {
        name: &'a Name,
        formals: &'a [DeclNo],
    },
    ProtectedBody {
        name: &'a Name,
        decls: &'a [DeclNo],
        end: Option<ExprNo>,
    },
    /// The formals, and the local declarations behind them.
    EntryBody {
        name: &'a Name,
        decls: &'a [DeclNo],
        barrier: ExprNo,
        body: StmtNo,
        end: Option<ExprNo>,
    },
    LoopParameter {
        name: &'a Name,
        is_reverse: bool,
        range: ExprNo,
    },
    StatementName {
        name: &'a Name,
    },
    State {
        name: &'a Name,
        has_options: bool,
    },
    /// A node of another shape, or none.
    Absent,
}

/// A form, and where its name stands, or else its first token.
#[derive(Clone, Copy, Debug)]
pub struct FormedDecl<'a> {
    pub at: Pos,
    pub form: DeclForm<'a>,
}

fn range_type<'a>(d: DeclNo, name: &'a Name, exprs: &[ExprNo]) -> DeclForm<'a>
    ensures tree { (tree : Number → Tree) (at : Place) → decl_tree tree d at result ≡ spec.range_type_at d at name.now (map tree exprs.now) }
    ensures below { AreDeclsBelow d.0 result }
{
    match exprs {
        [low, high] => DeclForm::RangeType {
            name,
            low: *low,
            high: *high,
        },
        _ => DeclForm::Absent,
    }
}

fn modular_type<'a>(d: DeclNo, name: &'a Name, exprs: &[ExprNo]) -> DeclForm<'a>
    ensures tree { (tree : Number → Tree) (at : Place) → decl_tree tree d at result ≡ spec.modular_type_at d at name.now (map tree exprs.now) }
    ensures below { AreDeclsBelow d.0 result }
{
    match exprs {
        [modulus] => DeclForm::ModularType {
            name,
            modulus: *modulus,
        },
        _ => DeclForm::Absent,
    }
}

fn array_type<'a>(d: DeclNo, name: &'a Name, exprs: &[ExprNo]) -> DeclForm<'a>
    ensures tree { (tree : Number → Tree) (at : Place) → decl_tree tree d at result ≡ spec.array_type_at d at name.now (map tree exprs.now) }
    ensures below { AreDeclsBelow d.0 result }
{
    match exprs {
        [index, element] => DeclForm::ArrayType {
            name,
            index: *index,
            element: *element,
        },
        _ => DeclForm::Absent,
    }
}

fn component<'a>(d: DeclNo, name: &'a Name, exprs: &[ExprNo]) -> DeclForm<'a>
    ensures tree { (tree : Number → Tree) (at : Place) → decl_tree tree d at result ≡ spec.component_at d at name.now (map tree exprs.now) }
    ensures below { AreDeclsBelow d.0 result }
{
    match exprs {
        [subtype] => DeclForm::Component {
            name,
            subtype: *subtype,
            preset: None,
        },
        [subtype, preset] => DeclForm::Component {
            name,
            subtype: *subtype,
            preset: Some(*preset),
        },
        _ => DeclForm::Absent,
    }
}

fn subtype<'a>(d: DeclNo, name: &'a Name, exprs: &[ExprNo]) -> DeclForm<'a>
    ensures tree { (tree : Number → Tree) (at : Place) → decl_tree tree d at result ≡ spec.subtype_at d at name.now (map tree exprs.now) }
    ensures below { AreDeclsBelow d.0 result }
{
    match exprs {
        [subtype] => DeclForm::Subtype {
            name,
            subtype: *subtype,
        },
        _ => DeclForm::Absent,
    }
}

fn object<'a>(d: DeclNo, name: &'a Name, is_constant: bool, exprs: &[ExprNo]) -> DeclForm<'a>
    ensures tree { (tree : Number → Tree) (at : Place) → decl_tree tree d at result ≡ spec.object_at d at name.now is_constant (map tree exprs.now) }
    ensures below { AreDeclsBelow d.0 result }
{
    match exprs {
        [subtype] => DeclForm::Object {
            name,
            is_constant,
            subtype: *subtype,
            value: None,
        },
        [subtype, value] => DeclForm::Object {
            name,
            is_constant,
            subtype: *subtype,
            value: Some(*value),
        },
        _ => DeclForm::Absent,
    }
}

fn named_number<'a>(d: DeclNo, name: &'a Name, exprs: &[ExprNo]) -> DeclForm<'a>
    ensures tree { (tree : Number → Tree) (at : Place) → decl_tree tree d at result ≡ spec.named_number_at d at name.now (map tree exprs.now) }
    ensures below { AreDeclsBelow d.0 result }
{
    match exprs {
        [value] => DeclForm::NamedNumber {
            name,
            value: *value,
        },
        _ => DeclForm::Absent,
    }
}

fn formal<'a>(
    d: DeclNo,
    name: &'a Name,
    is_in: bool,
    is_out: bool,
    exprs: &[ExprNo],
) -> DeclForm<'a>
    ensures tree { (tree : Number → Tree) (at : Place) → decl_tree tree d at result ≡ spec.formal_at d at name.now is_in is_out (map tree exprs.now) }
    ensures below { AreDeclsBelow d.0 result }
{
    match exprs {
        [mark] => DeclForm::Formal {
            name,
            is_in,
            is_out,
            mark: *mark,
        },
        _ => DeclForm::Absent,
    }
}

fn expression_function<'a>(
    d: DeclNo,
    name: &'a Name,
    formals: &'a [DeclNo],
    exprs: &[ExprNo],
) -> DeclForm<'a>
    requires children { All (λ (c : DeclNumber). c.0 < d.0) formals.now }
    ensures tree { (tree : Number → Tree) (at : Place) → decl_tree tree d at result ≡ spec.expression_function_at d at name.now formals.now (map tree exprs.now) }
    ensures below { AreDeclsBelow d.0 result }
{
    match exprs {
        [mark, value] => DeclForm::ExpressionFunction {
            name,
            formals,
            mark: *mark,
            value: *value,
        },
        _ => DeclForm::Absent,
    }
}

fn task<'a>(d: DeclNo, name: &'a Name, is_type: bool, exprs: &[ExprNo]) -> DeclForm<'a>
    ensures tree { (tree : Number → Tree) (at : Place) → decl_tree tree d at result ≡ spec.task_at d at name.now is_type (map tree exprs.now) }
    ensures below { AreDeclsBelow d.0 result }
{
    match exprs {
        [] => DeclForm::Task {
            name,
            is_type,
            end: None,
        },
        [end] => DeclForm::Task {
            name,
            is_type,
            end: Some(*end),
        },
        _ => DeclForm::Absent,
    }
}

fn protected_unit<'a>(
    d: DeclNo,
    name: &'a Name,
    is_type: bool,
    decls: &'a [DeclNo],
    exprs: &[ExprNo],
) -> DeclForm<'a>
    requires children { All (λ (c : DeclNumber). c.0 < d.0) decls.now }
    ensures tree { (tree : Number → Tree) (at : Place) → decl_tree tree d at result ≡ spec.protected_unit_at d at name.now is_type decls.now (map tree exprs.now) }
    ensures below { AreDeclsBelow d.0 result }
{
    match exprs {
        [] => DeclForm::Protected {
            name,
            is_type,
            decls,
            end: None,
        },
        [end] => DeclForm::Protected {
            name,
            is_type,
            decls,
            end: Some(*end),
        },
        _ => DeclForm::Absent,
    }
}

fn protected_body<'a>(
    d: DeclNo,
    name: &'a Name,
    decls: &'a [DeclNo],
    exprs: &[ExprNo],
) -> DeclForm<'a>
    requires children { All (λ (c : DeclNumber). c.0 < d.0) decls.now }
    ensures tree { (tree : Number → Tree) (at : Place) → decl_tree tree d at result ≡ spec.protected_body_at d at name.now decls.now (map tree exprs.now) }
    ensures below { AreDeclsBelow d.0 result }
{
    match exprs {
        [] => DeclForm::ProtectedBody {
            name,
            decls,
            end: None,
        },
        [end] => DeclForm::ProtectedBody {
            name,
            decls,
            end: Some(*end),
        },
        _ => DeclForm::Absent,
    }
}

fn task_body<'a>(
    d: DeclNo,
    name: &'a Name,
    decls: &'a [DeclNo],
    body: StmtNo,
    exprs: &[ExprNo],
) -> DeclForm<'a>
    requires children { All (λ (c : DeclNumber). c.0 < d.0) decls.now }
    ensures tree { (tree : Number → Tree) (at : Place) → decl_tree tree d at result ≡ spec.task_body_at d at name.now decls.now body (map tree exprs.now) }
    ensures below { AreDeclsBelow d.0 result }
{
    match exprs {
        [] => DeclForm::TaskBody {
            name,
            decls,
            body,
            end: None,
        },
        [end] => DeclForm::TaskBody {
            name,
            decls,
            body,
            end: Some(*end),
        },
        _ => DeclForm::Absent,
    }
}

fn entry_body<'a>(
    d: DeclNo,
    name: &'a Name,
    decls: &'a [DeclNo],
    body: StmtNo,
    exprs: &[ExprNo],
) -> DeclForm<'a>
    requires children { All (λ (c : DeclNumber). c.0 < d.0) decls.now }
    ensures tree { (tree : Number → Tree) (at : Place) → decl_tree tree d at result ≡ spec.entry_body_at d at name.now decls.now body (map tree exprs.now) }
    ensures below { AreDeclsBelow d.0 result }
{
    match exprs {
        [barrier] => DeclForm::EntryBody {
            name,
            decls,
            barrier: *barrier,
            body,
            end: None,
        },
        [barrier, end] => DeclForm::EntryBody {
            name,
            decls,
            barrier: *barrier,
            body,
            end: Some(*end),
        },
        _ => DeclForm::Absent,
    }
}

fn procedure<'a>(
    d: DeclNo,
    name: &'a Name,
    is_null: bool,
    formals: &'a [DeclNo],
    exprs: &[ExprNo],
) -> DeclForm<'a>
    requires children { All (λ (c : DeclNumber). c.0 < d.0) formals.now }
    ensures tree { (tree : Number → Tree) (at : Place) → decl_tree tree d at result ≡ spec.procedure_at d at name.now is_null formals.now (map tree exprs.now) }
    ensures below { AreDeclsBelow d.0 result }
{
    match exprs {
        [] => DeclForm::Subprogram {
            name,
            is_null,
            formals,
            result_mark: None,
        },
        _ => DeclForm::Absent,
    }
}

fn function<'a>(
    d: DeclNo,
    name: &'a Name,
    is_null: bool,
    formals: &'a [DeclNo],
    exprs: &[ExprNo],
) -> DeclForm<'a>
    requires children { All (λ (c : DeclNumber). c.0 < d.0) formals.now }
    ensures tree { (tree : Number → Tree) (at : Place) → decl_tree tree d at result ≡ spec.function_at d at name.now is_null formals.now (map tree exprs.now) }
    ensures below { AreDeclsBelow d.0 result }
{
    match exprs {
        [result_mark] => DeclForm::Subprogram {
            name,
            is_null,
            formals,
            result_mark: Some(*result_mark),
        },
        _ => DeclForm::Absent,
    }
}

fn procedure_body<'a>(
    d: DeclNo,
    name: &'a Name,
    decls: &'a [DeclNo],
    body: StmtNo,
    exprs: &[ExprNo],
) -> DeclForm<'a>
    requires children { All (λ (c : DeclNumber). c.0 < d.0) decls.now }
    ensures tree { (tree : Number → Tree) (at : Place) → decl_tree tree d at result ≡ spec.procedure_body_at d at name.now decls.now body (map tree exprs.now) }
    ensures below { AreDeclsBelow d.0 result }
{
    match exprs {
        [] => DeclForm::SubprogramBody {
            name,
            decls,
            result_mark: None,
            body,
            end: None,
        },
        [end] => DeclForm::SubprogramBody {
            name,
            decls,
            result_mark: None,
            body,
            end: Some(*end),
        },
        _ => DeclForm::Absent,
    }
}

fn function_body<'a>(
    d: DeclNo,
    name: &'a Name,
    decls: &'a [DeclNo],
    body: StmtNo,
    exprs: &[ExprNo],
) -> DeclForm<'a>
    requires children { All (λ (c : DeclNumber). c.0 < d.0) decls.now }
    ensures tree { (tree : Number → Tree) (at : Place) → decl_tree tree d at result ≡ spec.function_body_at d at name.now decls.now body (map tree exprs.now) }
    ensures below { AreDeclsBelow d.0 result }
{
    match exprs {
        [result_mark] => DeclForm::SubprogramBody {
            name,
            decls,
            result_mark: Some(*result_mark),
            body,
            end: None,
        },
        [result_mark, end] => DeclForm::SubprogramBody {
            name,
            decls,
            result_mark: Some(*result_mark),
            body,
            end: Some(*end),
        },
        _ => DeclForm::Absent,
    }
}

fn protected_procedure<'a>(
    d: DeclNo,
    name: &'a Name,
    formals: &'a [DeclNo],
    exprs: &[ExprNo],
) -> DeclForm<'a>
    requires children { All (λ (c : DeclNumber). c.0 < d.0) formals.now }
    ensures tree { (tree : Number → Tree) (at : Place) → decl_tree tree d at result ≡ spec.protected_procedure_at d at name.now formals.now (map tree exprs.now) }
    ensures below { AreDeclsBelow d.0 result }
{
    match exprs {
        [] => DeclForm::ProtectedSubprogram {
            name,
            formals,
            result_mark: None,
        },
        _ => DeclForm::Absent,
    }
}

fn protected_function<'a>(
    d: DeclNo,
    name: &'a Name,
    formals: &'a [DeclNo],
    exprs: &[ExprNo],
) -> DeclForm<'a>
    requires children { All (λ (c : DeclNumber). c.0 < d.0) formals.now }
    ensures tree { (tree : Number → Tree) (at : Place) → decl_tree tree d at result ≡ spec.protected_function_at d at name.now formals.now (map tree exprs.now) }
    ensures below { AreDeclsBelow d.0 result }
{
    match exprs {
        [result_mark] => DeclForm::ProtectedSubprogram {
            name,
            formals,
            result_mark: Some(*result_mark),
        },
        _ => DeclForm::Absent,
    }
}

fn loop_parameter<'a>(d: DeclNo, name: &'a Name, is_reverse: bool, exprs: &[ExprNo]) -> DeclForm<'a>
    ensures tree { (tree : Number → Tree) (at : Place) → decl_tree tree d at result ≡ spec.loop_parameter_at d at name.now is_reverse (map tree exprs.now) }
    ensures below { AreDeclsBelow d.0 result }
{
    match exprs {
        [range] => DeclForm::LoopParameter {
            name,
            is_reverse,
            range: *range,
        },
        _ => DeclForm::Absent,
    }
}

fn subprogram<'a>(
    d: DeclNo,
    name: &'a Name,
    head: Head,
    is_null: bool,
    formals: &'a [DeclNo],
    exprs: &[ExprNo],
) -> DeclForm<'a>
    requires children { All (λ (c : DeclNumber). c.0 < d.0) formals.now }
    ensures tree { (tree : Number → Tree) (at : Place) → decl_tree tree d at result ≡ spec.subprogram_at d at name.now head is_null formals.now (map tree exprs.now) }
    ensures below { AreDeclsBelow d.0 result }
{
    match head {
        Head::Procedure { .. } => procedure(d, name, is_null, formals, exprs),
        Head::Function { .. } => function(d, name, is_null, formals, exprs),
    }
}

fn protected_subprogram<'a>(
    d: DeclNo,
    name: &'a Name,
    head: Head,
    formals: &'a [DeclNo],
    exprs: &[ExprNo],
) -> DeclForm<'a>
    requires children { All (λ (c : DeclNumber). c.0 < d.0) formals.now }
    ensures tree { (tree : Number → Tree) (at : Place) → decl_tree tree d at result ≡ spec.protected_subprogram_at d at name.now head formals.now (map tree exprs.now) }
    ensures below { AreDeclsBelow d.0 result }
{
    match head {
        Head::Procedure { .. } => protected_procedure(d, name, formals, exprs),
        Head::Function { .. } => protected_function(d, name, formals, exprs),
    }
}

fn body_with<'a>(
    d: DeclNo,
    name: &'a Name,
    head: Head,
    decls: &'a [DeclNo],
    body: StmtNo,
    exprs: &[ExprNo],
) -> DeclForm<'a>
    requires children { All (λ (c : DeclNumber). c.0 < d.0) decls.now }
    ensures tree { (tree : Number → Tree) (at : Place) → decl_tree tree d at result ≡ spec.body_with d at name.now head decls.now body (map tree exprs.now) }
    ensures below { AreDeclsBelow d.0 result }
{
    match head {
        Head::Procedure { .. } => procedure_body(d, name, decls, body, exprs),
        Head::Function { .. } => function_body(d, name, decls, body, exprs),
    }
}

fn subprogram_body<'a>(
    d: DeclNo,
    name: &'a Name,
    head: Head,
    decls: &'a [DeclNo],
    stmts: &[StmtNo],
    exprs: &[ExprNo],
) -> DeclForm<'a>
    requires children { All (λ (c : DeclNumber). c.0 < d.0) decls.now }
    ensures tree { (tree : Number → Tree) (at : Place) → decl_tree tree d at result ≡ spec.subprogram_body_at d at name.now head decls.now stmts.now (map tree exprs.now) }
    ensures below { AreDeclsBelow d.0 result }
{
    match stmts {
        [body] => body_with(d, name, head, decls, *body, exprs),
        _ => DeclForm::Absent,
    }
}

fn body_of_task<'a>(
    d: DeclNo,
    name: &'a Name,
    decls: &'a [DeclNo],
    stmts: &[StmtNo],
    exprs: &[ExprNo],
) -> DeclForm<'a>
    requires children { All (λ (c : DeclNumber). c.0 < d.0) decls.now }
    ensures tree { (tree : Number → Tree) (at : Place) → decl_tree tree d at result ≡ spec.body_of_task_at d at name.now decls.now stmts.now (map tree exprs.now) }
    ensures below { AreDeclsBelow d.0 result }
{
    match stmts {
        [body] => task_body(d, name, decls, *body, exprs),
        _ => DeclForm::Absent,
    }
}

fn body_of_entry<'a>(
    d: DeclNo,
    name: &'a Name,
    decls: &'a [DeclNo],
    stmts: &[StmtNo],
    exprs: &[ExprNo],
) -> DeclForm<'a>
    requires children { All (λ (c : DeclNumber). c.0 < d.0) decls.now }
    ensures tree { (tree : Number → Tree) (at : Place) → decl_tree tree d at result ≡ spec.body_of_entry_at d at name.now decls.now stmts.now (map tree exprs.now) }
    ensures below { AreDeclsBelow d.0 result }
{
    match stmts {
        [body] => entry_body(d, name, decls, *body, exprs),
        _ => DeclForm::Absent,
    }
}

fn named<'a>(
    d: DeclNo,
    name: &'a Name,
    kind: DeclKind,
    exprs: &[ExprNo],
    decls: &'a [DeclNo],
    stmts: &[StmtNo],
) -> DeclForm<'a>
    requires children { All (λ (c : DeclNumber). c.0 < d.0) decls.now }
    ensures tree { (tree : Number → Tree) (at : Place) → decl_tree tree d at result ≡ spec.named_at d at name.now kind (map tree exprs.now) decls.now stmts.now }
    ensures below { AreDeclsBelow d.0 result }
{
    match kind {
        DeclKind::EnumerationType => DeclForm::EnumerationType {
            name,
            literals: decls,
        },
        DeclKind::EnumerationLiteral => DeclForm::EnumerationLiteral { name },
        DeclKind::RangeType => range_type(d, name, exprs),
        DeclKind::ModularType => modular_type(d, name, exprs),
        DeclKind::ArrayType => array_type(d, name, exprs),
        DeclKind::NullRecordType => DeclForm::NullRecordType { name },
        DeclKind::PrivateType => DeclForm::PrivateType { name },
        DeclKind::RecordType => DeclForm::RecordType {
            name,
            components: decls,
        },
        DeclKind::Component { .. } => component(d, name, exprs),
        DeclKind::Subtype => subtype(d, name, exprs),
        DeclKind::Object { is_constant, .. } => object(d, name, is_constant, exprs),
        DeclKind::NamedNumber => named_number(d, name, exprs),
        DeclKind::Formal { is_in, is_out } => formal(d, name, is_in, is_out, exprs),
        DeclKind::SubprogramDeclaration { head, is_null } => subprogram(
            d, name, head, is_null, decls, exprs,
        ),
        DeclKind::ExpressionFunction { .. } => expression_function(d, name, decls, exprs),
        DeclKind::SubprogramBody { head, .. } => subprogram_body(
            d, name, head, decls, stmts, exprs,
        ),
        DeclKind::Task { is_type, .. } => task(d, name, is_type, exprs),
        DeclKind::TaskBody { .. } => body_of_task(d, name, decls, stmts, exprs),
        DeclKind::Protected { is_type, .. } => protected_unit(d, name, is_type, decls, exprs),
        DeclKind::ProtectedSubprogram { head } => protected_subprogram(d, name, head, decls, exprs),
        DeclKind::Entry { .. } => DeclForm::Entry {
            name,
            formals: decls,
        },
        DeclKind::ProtectedBody { .. } => protected_body(d, name, decls, exprs),
        DeclKind::EntryBody { .. } => body_of_entry(d, name, decls, stmts, exprs),
        DeclKind::LoopParameter { is_reverse } => loop_parameter(d, name, is_reverse, exprs),
        DeclKind::StatementName => DeclForm::StatementName { name },
        DeclKind::State { has_options } => DeclForm::State { name, has_options },
        _ => DeclForm::Absent,
    }
}

fn unnamed<'a>(d: DeclNo, kind: DeclKind, exprs: &'a [ExprNo], decls: &'a [DeclNo]) -> DeclForm<'a>
    requires children { All (λ (c : DeclNumber). c.0 < d.0) decls.now }
    ensures tree { (tree : Number → Tree) (at : Place) → decl_tree tree d at result ≡ spec.unnamed_at d at kind (map tree exprs.now) decls.now }
    ensures below { AreDeclsBelow d.0 result }
{
    match kind {
        DeclKind::With => DeclForm::With { units: exprs },
        DeclKind::ContextUse { is_type } => DeclForm::ContextUse {
            is_type,
            units: exprs,
        },
        DeclKind::Use { is_type } => DeclForm::Use {
            is_type,
            units: exprs,
        },
        DeclKind::PrivatePart => DeclForm::PrivatePart { decls },
        _ => DeclForm::Absent,
    }
}

/// Whether the declarations in one have smaller numbers.
fn are_decls_below(d: DeclNo, decls: &[DeclNo]) -> bool
    ensures { result ≡ spec.are_decls_below d decls.now }
{
    decls.iter().all(|c| c.0 < d.0)
}

fn form_of_node<'a>(d: DeclNo, node: &'a DeclNode) -> FormedDecl<'a>
    ensures tree { (tree : Number → Tree) → decl_tree tree d result.at result.form ≡ spec.node_decl tree d (Some node.now) }
    ensures below { AreDeclsBelow d.0 result.form }
{
    let decls = node.decls.as_slice();
    let at = node.span.from;
    if !are_decls_below(d, decls) {
        return FormedDecl {
            at,
            form: DeclForm::Absent,
        };
    }
    let exprs = node.exprs.as_slice();
    let form = match &node.name {
        None => unnamed(d, node.kind, exprs, decls),
        Some(name) => named(d, name, node.kind, exprs, decls, node.stmts.as_slice()),
    };
    FormedDecl { at, form }
}

/// The form of a declaration: absent where there is no node, and where a declaration in it has no smaller number.
pub fn decl_form<'a>(units: &'a Units, d: DeclNo) -> FormedDecl<'a>
    ensures tree { decl_of units.now d ≡ decl_tree (expr_of units.now.exprs) d result.at result.form }
    ensures below { AreDeclsBelow d.0 result.form }
{
    match units.decls.get(d.0 as usize) {
        None => FormedDecl {
            at: Pos { line: 1, col: 1 },
            form: DeclForm::Absent,
        },
        Some(node) => form_of_node(d, node),
    }
}
