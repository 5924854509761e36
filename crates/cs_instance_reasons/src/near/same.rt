// Whether two expressions that look at no part are the same.
use cs_package::Shape;

/// Whether they are the same expression. Those with parts are the same as none.
pub(super) fn is_same(first: &Shape, second: &Shape) -> bool {
    match (first.simple(), second.simple()) {
        (Some(simple), Some(other)) => simple == other,
        (Some(_), None) | (None, _) => false,
    }
}

/// Whether one of these is the same expression.
pub(super) fn has(shapes: &[&Shape], wanted: &Shape) -> bool {
    for shape in shapes {
        if is_same(shape, wanted) {
            return true;
        }
    }
    false
}

/// Whether each of the first ones is one of the second ones, and there are as many.
pub(super) fn are_same(first: &[&Shape], second: &[&Shape]) -> bool {
    for shape in first {
        if !has(second, shape) {
            return false;
        }
    }
    first.len() == second.len()
}
