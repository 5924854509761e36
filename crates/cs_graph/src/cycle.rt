// A cycle on the path of a walk, named from its lowest number on.

ghost use Rattle.std.specs.Prelude.{◌≡◌, ◌<◌, ◌≤◌, IfOk, OnOk, All, length, slice_index};
ghost use Rattle.cs_graph.specs.Paths.{tail_from, told, IsTurned};
ghost use Rattle.cs_graph.specs.Graph.{IsLowestFirst};
ghost use Rattle.cs_graph.specs.Walk.{numbers_of};

use crate::walk::Frame;
use std::alloc::{AllocError, Global};

/// The place of the lowest number.
fn lowest_place(numbers: &[usize]) -> usize
    requires { 0 < length numbers.now }
    ensures inside { result < length numbers.now }
    ensures lowest { All (λ n. slice_index numbers.now result ≤ n) numbers.now }
{
    let mut lowest = 0;
    for place in 1..numbers.len() {
        if numbers[place] < numbers[lowest] {
            lowest = place;
        }
    }
    lowest
}

/// Puts a number of a path behind those that are told, of which `first` is the first.
fn tell(numbers: &mut Vec<usize>, first: usize, number: usize) -> Result<(), AllocError>
    ensures { OnOk result (numbers.new.items ≡ told first numbers.old.items number) }
{
    if !numbers.is_empty() || number == first {
        numbers.push(number)?;
    }
    Ok(())
}

/// The numbers of the path from the place of a number on.
fn path_from(alloc: Global, path: &[Frame], number: usize) -> Result<Vec<usize>, AllocError>
    ensures { IfOk result (λ v. v.items ≡ tail_from number (numbers_of path.now)) }
{
    let mut numbers = Vec::new(alloc);
    for frame in path {
        tell(&mut numbers, number, frame.number)?;
    }
    Ok(numbers)
}

/// The numbers of the path from the place of a number on, turned so that the lowest number comes first.
pub(crate) fn cycle_from(
    alloc: Global,
    path: &[Frame],
    number: usize,
) -> Result<Vec<usize>, AllocError>
    ensures turned { IfOk result (λ v. IsTurned (tail_from number (numbers_of path.now)) v.items) }
    ensures lowest { IfOk result (λ v. IsLowestFirst v.items) }
{
    let mut numbers = path_from(alloc, path, number)?;
    if !numbers.is_empty() {
        let lowest = lowest_place(&numbers);
        numbers.rotate_left(lowest);
    }
    Ok(numbers)
}
