//! Lists without what others have.
ghost use Rattle.std.specs.Prelude.{◌≡◌};
ghost use Rattle.std.specs.List.{list_any};
ghost use Rattle.std.specs.List.Sorted.{IsSorted};
ghost use Rattle.meta_types.specs.Impacts.{less};

fn is_among<T: Ord>(sorted: &[T], item: &T) -> bool
    requires { IsSorted T.cmp sorted.now }
    ensures { result ≡ list_any (λ y. T.eq y item.now) sorted.now }
{
    sorted.binary_search(item).is_ok()
}

/// What the list has and the other one doesn't, in its order. The other is sorted first, so each
/// item is looked up by halving.
pub(crate) fn difference<T: Ord + Drop>(list: Vec<T>, other: Vec<T>) -> Vec<T>
    ensures { result.items ≡ less T.eq list.items other.items }
{
    let mut sorted = other;
    sorted.sort_unstable();
    let mut list = list;
    list.retain(
        |item: &T| -> bool
            requires { IsSorted T.cmp sorted.items }
        { !is_among(&sorted, item) },
    );
    list
}
