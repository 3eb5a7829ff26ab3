//! What parentheses with arguments make of a prefix, and a qualified expression of its value.
ghost use Rattle.std.specs.Prelude.{◌≡◌, slice_get, Some, None};
ghost use Rattle.seen_names.specs.Applications as spec;
ghost use Rattle.seen_names.specs.Contexts.{context};

use crate::context::{Place, Tables};
use crate::entities::{Entity, Valued, is_function, made_by, sure_in, type_in};
use crate::selections::part;
use crate::shown::Callable;
use ada_tree::is_written;
use name_findings::Mention;
use seen_types::{DURATION, ExprType, INTEGER, MOMENT, Shape};
use spark_base::TypeNo;

/// What a prefix with arguments is.
#[derive(Clone, Copy, Debug)]
pub enum Application {
    /// The prefix was refused, or has no type.
    ToNothing,
    /// To this type, if its mark has one.
    Conversion(Option<TypeNo>),
    /// A call of the function of this number: behind its protected object or by its name alone.
    Call(Mention, bool, usize),
    ClockCall(Mention),
    ProductCall(Mention, i128),
    /// The array; its index and its elements.
    Index(Valued, TypeNo, TypeNo),
    NoArray,
    /// A procedure or an entry.
    NoFunction(Mention),
    /// A package, a state, a task, a loop or a block.
    NoValue,
}

fn index_shape(value: Valued, shape: &Shape) -> Application
    ensures { result ≡ spec.index_shape value (Some shape.now) }
{
    match shape {
        Shape::Array { index, of } => Application::Index(value, *index, *of),
        _ => Application::NoArray,
    }
}

fn has_no_formals(callable: &Callable) -> bool
    ensures { result ≡ spec.has_no_formals callable.now }
{
    callable.formals.len() == 0
}

/// Whether a name is that of the formal of the function of Ada.Real_Time that multiplies with this factor: NS, US, MS, S
/// or M, in whatever case.
#[tactic(auto, unfolding(crate::specs::Applications::is_unit_name))]
pub fn is_unit_name(factor: i128, text: &[u8]) -> bool
    ensures { result ≡ spec.is_unit_name factor text.now }
{
    if factor == 1 {
        is_written(text, b"ns")
    } else if factor == 1_000 {
        is_written(text, b"us")
    } else if factor == 1_000_000 {
        is_written(text, b"ms")
    } else if factor == 1_000_000_000 {
        is_written(text, b"s")
    } else {
        is_written(text, b"m")
    }
}

impl Tables {
    fn index_type(&self, place: Place, value: Valued) -> Application
        ensures { result ≡ spec.index_type (context self.now place) value value.of }
    {
        match value.of {
            None => Application::ToNothing,
            Some(ExprType::AnyInteger) => Application::NoArray,
            Some(ExprType::Of(t)) => match self.types.shape(place.home, t) {
                None => Application::NoArray,
                Some(shape) => index_shape(value, shape),
            },
        }
    }

    fn index_value(&self, place: Place, entity: Entity) -> Application
        ensures { result ≡ spec.index_value (context self.now place) entity }
    {
        match entity {
            Entity::Valuable(value) => self.index_type(place, value),
            _ => Application::ToNothing,
        }
    }

    fn gives_array(&self, place: Place, callable: &Callable) -> bool
        ensures { result ≡ spec.gives_array (context self.now place) callable.now }
    {
        match callable.result {
            None => false,
            Some(t) => self.types.is_array(place.home, t),
        }
    }

    /// A call; of a function without formals that gives an array, an index of its result.
    fn call_of(
        &self,
        place: Place,
        mention: Mention,
        is_behind: bool,
        number: usize,
        callable: &Callable,
    ) -> Application
        ensures { result ≡ spec.call_of (context self.now place) mention is_behind number (Some callable.now) }
    {
        if !is_function(callable.form) {
            return Application::NoFunction(mention);
        }
        if has_no_formals(callable) && self.gives_array(place, callable) {
            self.index_value(place, self.call_result(mention, number))
        } else {
            Application::Call(mention, is_behind, number)
        }
    }

    fn call(&self, place: Place, mention: Mention, is_behind: bool, number: usize) -> Application
        ensures { result ≡ spec.call_of (context self.now place) mention is_behind number (slice_get self.now.callables number) }
    {
        match self.callable(number) {
            None => Application::ToNothing,
            Some(callable) => self.call_of(place, mention, is_behind, number, callable),
        }
    }

    /// What arguments in parentheses make of a prefix: a conversion, a call or an index.
    #[tactic(auto, unfolding(crate::specs::Applications::application))]
    pub fn application(&self, place: Place, prefix: Entity) -> Application
        ensures { result ≡ spec.application (context self.now place) prefix }
    {
        match prefix {
            Entity::Nothing => Application::ToNothing,
            Entity::Package(_) | Entity::Other => Application::NoValue,
            Entity::Mark(t) => Application::Conversion(t),
            Entity::Called(mention, is_behind, number) => {
                self.call(place, mention, is_behind, number)
            }
            Entity::Clock(mention) => Application::ClockCall(mention),
            Entity::Product(mention, factor) => Application::ProductCall(mention, factor),
            Entity::Valuable(_) => self.index_value(place, prefix),
        }
    }

    /// Whether the one value is converted to the type: integers are, to integers.
    pub fn is_convertible(
        &self,
        place: Place,
        t: TypeNo,
        has_value: bool,
        of: Option<ExprType>,
    ) -> bool
        ensures { result ≡ spec.is_convertible (context self.now place) t has_value of }
    {
        let fits = match of {
            None => true,
            Some(of) => self.types.is_integral(place.home, of),
        };
        has_value && self.types.is_integers(place.home, t) && fits
    }

    fn converted(&self, place: Place, t: Option<TypeNo>, has_value: bool, value: Entity) -> Entity
        ensures { result ≡ spec.converted (context self.now place) t has_value value }
    {
        match t {
            None => Entity::Nothing,
            Some(t) => {
                if self.is_convertible(place, t, has_value, type_in(value)) {
                    made_by(None, sure_in(value), Some(ExprType::Of(t)))
                } else {
                    Entity::Nothing
                }
            }
        }
    }

    /// What an application stands for. `has_value` says that there is one argument, without a name and no aggregate,
    /// `is_unit` that there is one, without a name or by that of the unit; `argument` is what the one stands for.
    #[tactic(auto, unfolding(crate::specs::Applications::applied))]
    pub fn applied(
        &self,
        place: Place,
        has_value: bool,
        is_unit: bool,
        argument: Entity,
        application: Application,
    ) -> Entity
        ensures { result ≡ spec.applied (context self.now place) has_value is_unit argument application }
    {
        match application {
            Application::Conversion(t) => self.converted(place, t, has_value, argument),
            Application::Call(mention, _, number) => self.call_result(mention, number),
            Application::ClockCall(mention) => {
                made_by(Some(mention), true, Some(ExprType::Of(MOMENT)))
            }
            Application::ProductCall(mention, _) => {
                let is_sure = is_unit && self.sure_as(place, INTEGER, argument);
                made_by(Some(mention), is_sure, Some(ExprType::Of(DURATION)))
            }
            Application::Index(value, _, of) => part(value, of),
            _ => Entity::Nothing,
        }
    }

    /// What a qualified expression stands for, by its mark and its value.
    #[tactic(auto, unfolding(crate::specs::Applications::qualified))]
    pub fn qualified(&self, place: Place, mark: Entity, value: Entity) -> Entity
        ensures { result ≡ spec.qualified (context self.now place) mark value }
    {
        match mark {
            Entity::Mark(Some(t)) => {
                made_by(None, self.sure_as(place, t, value), Some(ExprType::Of(t)))
            }
            _ => Entity::Nothing,
        }
    }
}
