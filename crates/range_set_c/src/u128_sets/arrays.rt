// Written by tools/c/narrow from src/u64_sets/arrays.rt.
//! Sets built from arrays.

ghost use Rattle.std.specs.Prelude.{◌≡◌, ◌⊎◌, [], IfOk, OnOk};
ghost use Rattle.rsb_integer.specs.Runs.{covers};
ghost use Rattle.range_set_blaze.specs.Set.{Adds, IsSetOf};
ghost use Rattle.range_set_c.specs.Answer.{IsChanged, IsRefused};
ghost use Rattle.range_set_c.specs.U128Runs.{interval_of_run, values_of};

use super::handle::Handle;
use crate::nullable_box::NullableBox;
use crate::status::CHANGED;
use crate::u128_values::ValueRun;
use range_set_blaze::RangeSetBlaze;
use std::alloc::{AllocError, Global};

/// Sets `out` to the values of the runs of an array, and returns `CHANGED`. The runs may come in
/// any order, and may overlap. A run whose last value is below its first one has no values. If an
/// allocation fails, it returns `NO_MEMORY`, and `out` is unchanged. It does not allocate if the
/// array is empty.
#[unsafe(no_mangle)]
pub extern "C" fn rsb_u128_from_runs(alloc: Global, out: &mut Handle, runs: &[ValueRun]) -> u32
    ensures answer { IsChanged result ⊎ IsRefused result }
    ensures members { IsChanged result → IsSetOf out.new.kept.set (values_of runs.now) }
    ensures refused { IsRefused result → out.new.kept.set ≡ out.old.kept.set }
    ensures spared { runs.now ≡ [] → IsChanged result }
{
    if runs.is_empty() {
        *out.as_box() = NullableBox::empty(alloc);
        return CHANGED;
    }
    let made = set_of(alloc, runs);
    out.set_to(alloc, made)
}

// Returns the set of the values of runs.
fn set_of(alloc: Global, runs: &[ValueRun]) -> Result<RangeSetBlaze<u128, Global>, AllocError>
    ensures { IfOk result (λ set. IsSetOf set (values_of runs.now)) }
{
    let mut set = RangeSetBlaze::new(alloc);
    for run in runs {
        add_run(&mut set, run)?;
    }
    Ok(set)
}

// Adds the values of a run.
fn add_run(set: &mut RangeSetBlaze<u128, Global>, run: &ValueRun) -> Result<(), AllocError>
    ensures { OnOk result (Adds set.old set.new (covers (interval_of_run run.now))) }
{
    set.ranges_insert(run.first.number()..=run.last.number())?;
    Ok(())
}
