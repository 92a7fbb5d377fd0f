//! What a run prints (Autoconf's manual, "Printing Messages").

ghost use Rattle.std.specs.Prelude.{◌≡◌, ◌++◌, IfOk, OnOk, codes, decimal};
ghost use Rattle.deftable.specs.declared.note.Stream.TheVariants.{Err};
ghost use Rattle.meaning.specs.Asking.{no_compiler};
ghost use Rattle.meaning.specs.Messages.{form_of, with_message};
ghost use Rattle.meaning.specs.Play.{cut_line};
ghost use Rattle.meaning.specs.Rows.{text_or_no};
ghost use Rattle.meaning.specs.State.{Cut, with_note};
ghost use Rattle.meaning.specs.Tests.{broken, checking, with_result};

use crate::store::Store;
use ac_tree::Message;
use deftable::{Bytes, Stream};
use std::alloc::{AllocError, Global};

/// The stream to which a message is printed, and the texts before and after its own.
#[derive(Drop)]
struct MessageForm {
    stream: Stream,
    before: &'static [u8],
    after: &'static [u8],
}

/// Returns the form of a message.
fn form_of(message: Message) -> MessageForm
    ensures { record {
      stream = result.stream;
      before = result.before.now;
      after = result.after.now;
    }
        ≡ form_of message }
{
    match message {
        Message::Checking => MessageForm {
            stream: Stream::Out,
            before: b"checking ",
            after: b"... ",
        },
        Message::Results => MessageForm {
            stream: Stream::Out,
            before: b"",
            after: b"\n",
        },
        Message::Notice => MessageForm {
            stream: Stream::Out,
            before: b"configure: ",
            after: b"\n",
        },
        Message::Warning => MessageForm {
            stream: Stream::Err,
            before: b"configure: WARNING: ",
            after: b"\n",
        },
        Message::Error => MessageForm {
            stream: Stream::Err,
            before: b"configure: error: ",
            after: b"\n",
        },
    }
}

/// Prints a message.
pub fn say(
    alloc: Global,
    store: &mut Store,
    message: Message,
    text: &[u8],
) -> Result<(), AllocError>
    ensures { OnOk result (store.new ≡ with_message message text.now store.old) }
{
    let form = form_of(message);
    store.add_note(alloc, form.stream, form.before, text, form.after)
}

/// Prints that a program is looked for.
pub fn begin_search(alloc: Global, store: &mut Store, program: &[u8]) -> Result<(), AllocError>
    ensures { OnOk result (store.new ≡ checking (codes "for " ++ program.now) store.old) }
{
    store.add_note(alloc, Stream::Out, b"checking for ", program, b"... ")
}

/// Prints what a check checks.
pub fn begin_check(alloc: Global, store: &mut Store, message: &[u8]) -> Result<(), AllocError>
    ensures { OnOk result (store.new ≡ checking message.now store.old) }
{
    say(alloc, store, Message::Checking, message)
}

/// Prints the value that a check ends with.
pub fn end_check(alloc: Global, store: &mut Store, value: &[u8]) -> Result<(), AllocError>
    ensures { OnOk result (store.new ≡ with_result value.now store.old) }
{
    say(alloc, store, Message::Results, value)
}

/// Prints the value of a check whose name is set.
pub fn end_known_check(alloc: Global, store: &mut Store, value: &[u8]) -> Result<(), AllocError>
    ensures { OnOk result (store.new ≡ with_result (codes "(cached) " ++ value.now) store.old) }
{
    store.add_note(alloc, Stream::Out, b"(cached) ", value, b"\n")
}

/// Returns `no` if the text is empty.
fn text_or_no(text: &[u8]) -> &[u8]
    ensures { result.now ≡ text_or_no text.now }
{
    if text.is_empty() {
        return b"no";
    }
    text
}

/// Prints the value that a search ends with, or `no` if it is empty.
pub fn end_search(alloc: Global, store: &mut Store, value: &[u8]) -> Result<(), AllocError>
    ensures { OnOk result (store.new ≡ with_result (text_or_no value.now) store.old) }
{
    end_check(alloc, store, text_or_no(value))
}

/// Prints the value of a search whose name is set, or `no` if it is empty.
pub fn end_cached(alloc: Global, store: &mut Store, value: &[u8]) -> Result<(), AllocError>
    ensures { OnOk result (
        store.new ≡ with_result (codes "(cached) " ++ text_or_no value.now) store.old) }
{
    end_known_check(alloc, store, text_or_no(value))
}

/// Unsets the name of a test that is cut short, and prints that it is.
pub fn break_test(alloc: Global, store: &mut Store, name: &[u8]) -> Result<(), AllocError>
    ensures { OnOk result (store.new ≡ broken name.now Cut store.old) }
{
    store.unset(name);
    store.add_note(alloc, Stream::Out, b"refused", b"", b"\n")
}

/// Prints that there is no compiler.
pub fn report_no_compiler(alloc: Global, store: &mut Store) -> Result<(), AllocError>
    ensures { OnOk result (store.new ≡ with_note Err no_compiler store.old) }
{
    say(
        alloc,
        store,
        Message::Error,
        b"no acceptable C compiler found in $PATH",
    )
}

fn digits(alloc: Global, number: u64) -> Result<Bytes, AllocError>
    ensures { IfOk result (λ t. t ≡ decimal number) }
{
    let text = format!(in alloc; "{number}")?;
    Bytes::from_slice(alloc, text.as_bytes())
}

/// Prints that the run is cut short at the child of this number.
pub fn report_cut(alloc: Global, store: &mut Store, number: u64) -> Result<(), AllocError>
    ensures { OnOk result (store.new ≡ with_note Err (cut_line number) store.old) }
{
    let digits = digits(alloc, number)?;
    store.add_note(
        alloc,
        Stream::Err,
        b"configure: cut short at child ",
        digits.as_slice(),
        b"\n",
    )
}
