// What many crates ask of lent memory: an element, or another value where there is none.
#![tactic(auto)]

ghost use Rattle.std.specs.Prelude.{◌≡◌, get_or};

// The element at a place, or the other value past the end.
pub fn element_or<T: Copy>(items: &[T], i: usize, other: T) -> T
    ensures { result ≡ get_or items.now i other }
{
    if i < items.len() { items[i] } else { other }
}
