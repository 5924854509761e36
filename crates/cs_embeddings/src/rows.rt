// Rows of truth values: of the numbers of labels, which are declared. A number behind the end isn't.
ghost use Rattle.std.specs.Prelude.{◌≡◌, ℕ, ◌<◌, ◌≤◌, ◌==◌, ◌||◌, ◌&&◌, false, length, get_or, OnOk};

use std::alloc::AllocError;

/// Whether a row has the number.
pub(crate) fn has(row: &[bool], number: usize) -> bool
    ensures { result ≡ get_or row.now number false }
{
    match row.get(number) {
        Some(has) => *has,
        None => false,
    }
}

/// Adds a number to a row.
pub(crate) fn set(row: &mut Vec<bool>, number: usize) -> Result<(), AllocError>
    ensures short { OnOk result ((most : ℕ) → length row.old.items ≤ most → number < most → length row.new.items ≤ most) }
    ensures has { OnOk result ((i : ℕ) → get_or row.new.items i false ≡ (get_or row.old.items i false || i == number)) }
{
    while row.len() <= number {
        row.push(false)?;
    }
    row[number] = true;
    Ok(())
}

/// Adds all numbers that another row has.
pub(crate) fn unite(row: &mut Vec<bool>, other: &[bool]) -> Result<(), AllocError>
    ensures short { OnOk result ((most : ℕ) → length row.old.items ≤ most → length other.now ≤ most → length row.new.items ≤ most) }
    ensures has { OnOk result ((i : ℕ) → get_or row.new.items i false ≡ (get_or row.old.items i false || get_or other.now i false)) }
{
    for (place, has) in other.iter().enumerate() {
        if place >= row.len() {
            row.push(*has)?;
        } else if *has {
            row[place] = true;
        }
    }
    Ok(())
}

/// Takes away all numbers that another row doesn't have.
pub(crate) fn meet(row: &mut Vec<bool>, other: &[bool])
    ensures short { length row.new.items ≡ length row.old.items }
    ensures has { (i : ℕ) → get_or row.new.items i false ≡ (get_or row.old.items i false && get_or other.now i false) }
{
    for place in 0..row.len() {
        if !has(other, place) {
            row[place] = false;
        }
    }
}
