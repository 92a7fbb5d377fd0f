//! The beginning and the end of AC_CACHE_CHECK.

ghost use Rattle.std.specs.Prelude.{◌≡◌, IfOk, OnOk};
ghost use Rattle.plan.specs.Walk.{outer_tests};
ghost use Rattle.run_step.specs.Checks.{Begins, IsOpened, after_message, shown_of};
ghost use Rattle.run_test.specs.declared.flow.Flow.TheVariants.{Pass};

use run_state::pieces::{begin_check, end_check, end_known_check};
use run_state::{OpenTests, Store};
use run_test::Flow;
use shellword::HereText;
use std::alloc::{AllocError, Global};

/// Prints what a check checks.
fn begin_message(alloc: Global, store: &mut Store, message: &HereText) -> Result<(), AllocError>
    ensures { OnOk result (store.new ≡ after_message message.now store.old) }
{
    let message = store.here_text(alloc, message)?;
    begin_check(alloc, store, message.as_slice())
}

/// Opens a test or, if its name is set, prints the value and passes `steps` steps.
fn open_test(
    alloc: Global,
    store: &mut Store,
    tests: &mut OpenTests,
    name: &[u8],
    steps: usize,
) -> Result<Flow, AllocError>
    ensures { IfOk result (IsOpened name.now steps tests.old tests.new store.old store.new) }
{
    let Some(value) = store.value_of(alloc, name)? else {
        tests.open(alloc, name)?;
        return Ok(Flow::Pass { more: 0 });
    };
    end_known_check(alloc, store, value.as_slice())?;
    Ok(Flow::Pass { more: steps })
}

/// Begins a check. If its name is set, passes `steps` steps.
pub(crate) fn open_check(
    alloc: Global,
    store: &mut Store,
    tests: &mut OpenTests,
    message: &HereText,
    name: &[u8],
    steps: usize,
) -> Result<Flow, AllocError>
    ensures { Begins message.now name.now steps result tests.old tests.new store.old store.new }
{
    begin_message(alloc, store, message)?;
    open_test(alloc, store, tests, name, steps)
}

/// Prints the value of a test's name, or nothing if it isn't set.
fn print_value(alloc: Global, store: &mut Store, name: &[u8]) -> Result<(), AllocError>
    ensures { OnOk result (store.new ≡ shown_of name.now store.old) }
{
    let value = store.value_or_empty(alloc, name)?;
    end_check(alloc, store, value.as_slice())
}

/// Ends the check of this name, which began last.
pub(crate) fn close_check(
    alloc: Global,
    store: &mut Store,
    tests: &mut OpenTests,
    name: &[u8],
) -> Result<Flow, AllocError>
    ensures passes { IfOk result (λ flow. flow ≡ Pass 0) }
    ensures closes { OnOk result (tests.new ≡ outer_tests tests.old) }
    ensures prints { OnOk result (store.new ≡ shown_of name.now store.old) }
{
    print_value(alloc, store, name)?;
    let _ = tests.close();
    Ok(Flow::Pass { more: 0 })
}
