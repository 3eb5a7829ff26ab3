ghost use Rattle.std.specs.Prelude.{◌≡◌, ◌↔◌, [], length, IsTrue, IfOk};

use crate::{Items, NoMemory};
use std::alloc::AllocError;
use std::marker::Model;
use std::sync::ArcSlice;

/// A list that is cloned without copying its elements, and that contracts see as the list of them.
#[derive(Debug, Drop)]
pub struct Shared<T> {
    /// None where there are no elements.
    items: Option<ArcSlice<T>>,
}

impl<T> Model for Shared<T> {
    ghost use Rattle.std.specs.Prelude.{List, []};
    ghost use Rattle.std.specs.Coded.{coded_list};
    ghost use Rattle.std.specs.Option.{option_map_or};
    ghost use Rattle.std.specs.Arc.{arc_slice_items};

    ghost Value = { List T };

    ghost coded = { coded_list T.code };

    ghost view = { λ s. option_map_or arc_slice_items s.items [] };
}

impl<T: Drop> Clone for Shared<T> {
    ghost use Rattle.std.specs.Prelude.{◌≡◌};

    ghost is_clone = { λ s copy. copy ≡ s };

    fn clone(&self) -> Result<Self, AllocError> {
        let items = match &self.items {
            Some(items) => Some(items.clone()?),
            None => None,
        };
        Ok(Shared { items })
    }
}

impl<T> Shared<T> {
    /// The list of these elements; an empty one takes no memory.
    pub fn from_items(items: Items<T>) -> Result<Self, NoMemory>
    where
        T: Drop,
        ensures { IfOk result (λ s. s ≡ items) }
    {
        if items.is_empty() {
            return Ok(Shared { items: None });
        }
        let items = ArcSlice::from_vec(items.into_vec())?;
        Ok(Shared { items: Some(items) })
    }

    /// The elements as a slice.
    pub fn as_slice(&self) -> &[T]
        ensures { result.now ≡ self.now }
    {
        match &self.items {
            Some(items) => items.as_slice(),
            None => &[],
        }
    }

    /// The count of elements.
    pub fn len(&self) -> usize
        ensures { result ≡ length self.now }
    {
        self.as_slice().len()
    }

    /// Whether there is no element.
    pub fn is_empty(&self) -> bool
        ensures { IsTrue result ↔ (self.now ≡ []) }
    {
        self.as_slice().is_empty()
    }
}

#[cfg(test)]
mod tests {
    use super::*;
    use std::test::Fail;

    #[test]
    fn a_clone_has_the_elements(rt: HostRuntime) -> Result<(), Fail> {
        let alloc = rt.alloc();
        let mut items = Items::new(alloc);
        items.push(3u32)?;
        items.push(5u32)?;
        let list = Shared::from_items(items)?;
        let copy = list.clone()?;
        assert_eq!(rt; copy.as_slice(), [3u32, 5u32].as_slice());
        assert_eq!(rt; list.len(), 2);
        let none = Shared::from_items(Items::<u32>::new(alloc))?;
        assert!(rt; none.clone()?.is_empty());
        Ok(())
    }
}
