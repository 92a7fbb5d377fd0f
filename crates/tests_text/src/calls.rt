//! The calls that tables of rows try.

use crate::of_acparse::Lists;
use crate::of_cachefile::Caches;
use crate::of_cfglog::{Logs, Messages};
use crate::of_conftest::{Commands, Sources};
use crate::of_deftable::{Steps, Texts};
use crate::of_lint_macros::Macrotable;
use crate::of_m4quote::{Items, Meanings};
use crate::of_output_make::Making;
use crate::of_output_put::Puts;
use crate::of_status_record::Records;
use crate::of_template::{Filling, Placing};
use crate::of_template_headers::Headers;
use crate::of_template_pieces::Pieces;
use crate::of_text_cut::Textcut;
use crate::{
    of_ac_args, of_ac_args_entries, of_ac_macros, of_options, of_options_precious, of_shell_bare,
    of_shellword,
};
use test_rows::{Large, Named, Page, RowCall};

/// The call of a table.
pub enum Call {
    Arguments,
    BareText,
    Caches,
    CommandLines,
    Commands,
    Conftests,
    Cuts,
    Entries,
    Headers,
    Items,
    Logs,
    Macros,
    Making,
    Meanings,
    Messages,
    OtherCalls,
    OtherMacros,
    Pieces,
    Places,
    PreciousVariables,
    Puts,
    Records,
    Sources,
    Tables,
    Templates,
    Texts,
    Words,
}

/// The calls by the names of their tables.
pub const CALLS: [(&[u8], Call); 27] = [
    (b"arguments", Call::Arguments),
    (b"bare text", Call::BareText),
    (b"caches", Call::Caches),
    (b"command lines", Call::CommandLines),
    (b"commands", Call::Commands),
    (b"conftests", Call::Conftests),
    (b"cuts", Call::Cuts),
    (b"entries", Call::Entries),
    (b"headers", Call::Headers),
    (b"items", Call::Items),
    (b"logs", Call::Logs),
    (b"macros", Call::Macros),
    (b"making", Call::Making),
    (b"meanings", Call::Meanings),
    (b"messages", Call::Messages),
    (b"other calls", Call::OtherCalls),
    (b"other macros", Call::OtherMacros),
    (b"pieces", Call::Pieces),
    (b"places", Call::Places),
    (b"precious variables", Call::PreciousVariables),
    (b"puts", Call::Puts),
    (b"records", Call::Records),
    (b"sources", Call::Sources),
    (b"tables", Call::Tables),
    (b"templates", Call::Templates),
    (b"texts", Call::Texts),
    (b"words", Call::Words),
];

/// The calls that are also given about a mebibyte, or 10,000 entries.
pub const LARGE: [(&[u8], Large<Call>); 11] = [
    (b"caches", Large(Call::Caches)),
    (b"command lines", Large(Call::CommandLines)),
    (b"conftests", Large(Call::Conftests)),
    (b"headers", Large(Call::Headers)),
    (b"logs", Large(Call::Logs)),
    (b"making", Large(Call::Making)),
    (b"pieces", Large(Call::Pieces)),
    (b"precious variables", Large(Call::PreciousVariables)),
    (b"records", Large(Call::Records)),
    (b"tables", Large(Call::Tables)),
    (b"templates", Large(Call::Templates)),
];

impl Call {
    fn put_second(&self, page: &mut Page, given: &[u8]) {
        match self {
            Call::Items => Items.put(page, given),
            Call::Logs => Logs.put(page, given),
            Call::Macros => Named(&of_ac_macros::READERS).put(page, given),
            Call::Making => Making.put(page, given),
            Call::Meanings => Meanings.put(page, given),
            Call::Messages => Messages.put(page, given),
            Call::OtherCalls => Named(&of_ac_args::OTHERS).put(page, given),
            Call::OtherMacros => Macrotable.put(page, given),
            Call::Pieces => Pieces.put(page, given),
            _ => self.put_third(page, given),
        }
    }

    fn put_third(&self, page: &mut Page, given: &[u8]) {
        match self {
            Call::Places => Placing.put(page, given),
            Call::PreciousVariables => Named(&of_options_precious::READERS).put(page, given),
            Call::Puts => Puts.put(page, given),
            Call::Records => Records.put(page, given),
            Call::Sources => Lists.put(page, given),
            Call::Tables => Steps.put(page, given),
            Call::Templates => Filling.put(page, given),
            Call::Texts => Texts.put(page, given),
            _ => Named(&of_shellword::READERS).put(page, given),
        }
    }
}

impl RowCall for Call {
    fn put(&self, page: &mut Page, given: &[u8]) {
        match self {
            Call::Arguments => Named(&of_ac_args::READERS).put(page, given),
            Call::BareText => Named(&of_shell_bare::CALLS).put(page, given),
            Call::Caches => Caches.put(page, given),
            Call::CommandLines => Named(&of_options::READERS).put(page, given),
            Call::Commands => Commands.put(page, given),
            Call::Conftests => Sources.put(page, given),
            Call::Cuts => Textcut.put(page, given),
            Call::Entries => Named(&of_ac_args_entries::READERS).put(page, given),
            Call::Headers => Headers.put(page, given),
            _ => self.put_second(page, given),
        }
    }
}
