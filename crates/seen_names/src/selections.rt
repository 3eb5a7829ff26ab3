//! What stands behind a point.
ghost use Rattle.std.specs.Prelude.{◌≡◌, Some, None};
ghost use Rattle.seen_names.specs.Contexts.{context};
ghost use Rattle.seen_names.specs.Entities as spec;

use crate::context::{Place, Tables};
use crate::entities::{Entity, Valued, of_shown, of_what};
use crate::shown::{Role, Shown, Value, What};
use name_findings::Mention;
use name_keys::KeyMap;
use seen_types::{ExprType, FieldSeen, Shape};
use spark_base::{Name, TypeNo};

/// What stands behind a point.
#[derive(Clone, Copy, Debug)]
pub enum Selection {
    /// The prefix was refused, or has no type.
    OfNothing,
    /// Behind a package its member, if there is one.
    InPackage(Option<Shown>),
    /// A component of a record, and the record.
    Component(Valued, FieldSeen),
    /// An operation of a protected object.
    Operation(Shown),
    NoComponent,
}

fn is_subprogram(what: What) -> bool
    ensures { result ≡ spec.is_subprogram what }
{
    match what {
        What::Subprogram(_) => true,
        _ => false,
    }
}

fn an_operation(shown: Option<Shown>) -> Selection
    ensures { result ≡ spec.an_operation shown }
{
    match shown {
        None => Selection::NoComponent,
        Some(shown) => {
            if is_subprogram(shown.what) {
                Selection::Operation(shown)
            } else {
                Selection::NoComponent
            }
        }
    }
}

fn component(value: Valued, field: Option<FieldSeen>) -> Selection
    ensures { result ≡ spec.component value field }
{
    match field {
        None => Selection::NoComponent,
        Some(field) => Selection::Component(value, field),
    }
}

fn component_in(value: Valued, key: Option<usize>, fields: &KeyMap<FieldSeen>) -> Selection
    ensures { result ≡ spec.component_in value key fields.now }
{
    match key {
        None => Selection::NoComponent,
        Some(key) => component(value, fields.find(key)),
    }
}

/// A part of a value: it is written as the whole is.
pub(crate) fn part(value: Valued, t: TypeNo) -> Entity
    ensures { result ≡ spec.part value t }
{
    Entity::Valuable(Valued {
        of: Some(ExprType::Of(t)),
        role: value.role,
        source: value.source,
        value: Value::NotStatic,
        is_sure: true,
    })
}

/// What a selected name stands for.
pub fn selected(mention: Mention, selection: Selection) -> Entity
    ensures { result ≡ spec.selected mention selection }
{
    match selection {
        Selection::InPackage(shown) => of_shown(mention, shown),
        Selection::Component(value, field) => part(value, field.of),
        Selection::Operation(shown) => of_what(mention, true, shown.what),
        _ => Entity::Nothing,
    }
}

impl Tables {
    /// What stands behind a protected object: an operation, if it is the object as a whole.
    fn behind_object(&self, place: Place, role: Role, unit: usize, name: &Name) -> Selection
        ensures { result ≡ spec.behind_object (context self.now place) role unit name.now }
    {
        match role {
            Role::ProtectedObject => an_operation(self.operation(place, unit, name)),
            _ => Selection::NoComponent,
        }
    }

    fn behind_shape(&self, place: Place, value: Valued, name: &Name, shape: &Shape) -> Selection
        ensures { result ≡ spec.behind_shape (context self.now place) value name.now (Some shape.now) }
    {
        match shape {
            Shape::Fields(fields) => component_in(value, self.key_of(name), fields),
            Shape::Protected(unit) => self.behind_object(place, value.role, *unit, name),
            _ => Selection::NoComponent,
        }
    }

    fn behind_type(&self, place: Place, value: Valued, name: &Name) -> Selection
        ensures { result ≡ spec.behind_type (context self.now place) value name.now value.of }
    {
        match value.of {
            None => Selection::OfNothing,
            Some(ExprType::AnyInteger) => Selection::NoComponent,
            Some(ExprType::Of(t)) => match self.types.shape(place.home, t) {
                None => Selection::NoComponent,
                Some(shape) => self.behind_shape(place, value, name, shape),
            },
        }
    }

    fn behind_value(&self, place: Place, name: &Name, entity: Entity) -> Selection
        ensures { result ≡ spec.behind_value (context self.now place) name.now entity }
    {
        match entity {
            Entity::Valuable(value) => self.behind_type(place, value, name),
            _ => Selection::OfNothing,
        }
    }

    /// What stands behind a point: behind a package its member, behind a record its component, behind a protected object its
    /// operation.
    #[tactic(auto, unfolding(crate::specs::Entities::selection))]
    pub fn selection(&self, place: Place, name: &Name, prefix: Entity) -> Selection
        ensures { result ≡ spec.selection (context self.now place) name.now prefix }
    {
        match prefix {
            Entity::Package(package) => Selection::InPackage(self.member(place, package, name)),
            _ => self.behind_value(place, name, self.as_value(place, prefix)),
        }
    }
}
