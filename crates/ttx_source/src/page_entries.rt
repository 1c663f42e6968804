//! The entries of a page's table, found in one walk.

ghost use Rattle.std.specs.Prelude.{◌≡◌, false, option_map};
ghost use Rattle.toml.specs.Data.{as_integer, as_bool, as_str, get_member};
ghost use Rattle.toml.specs.View.{table_view, view};
ghost use Rattle.ttx_source.specs.Entries.{AreFound};
ghost use Rattle.ttx_source.specs.Values as rule;
ghost use Rattle.ttx_source.specs.Values.{with_default};
ghost use Rattle.ttx_source.specs.KeyFaults.{key_outcome, key_name};

use crate::key_faults::KeyFault;
use crate::keys::{Key, place_of};
use crate::values::{flag_of, integer_in, required_text, text_in};
use toml::{Table, Value};

/// A table, and the value at each key, in the order of `Key`.
#[derive(Clone, Copy)]
pub(crate) struct PageEntries<'a> {
    table: &'a Table,
    values: [Option<&'a Value>; 28],
}

impl<'a> PageEntries<'a> {
    /// The entries of a table.
    pub(crate) fn of(table: &'a Table) -> PageEntries<'a>
        ensures table { result.table.now ≡ table.now }
        ensures found { AreFound result }
    {
        let mut values = [None; 28];
        for (key, value) in table.iter() {
            match place_of(key.as_str()) {
                None => {}
                Some(place) => values[place] = Some(value),
            }
        }
        PageEntries { table, values }
    }

    /// The value at a key; `None` if the table does not have the key.
    pub(crate) fn member(&self, key: Key) -> Option<&'a Value>
        requires { AreFound self.now }
        ensures { option_map (λ x. view x.now) result ≡ get_member (key_name key) (table_view self.now.table.now) }
    {
        let values = &self.values[..];
        values[key.place()]
    }

    /// The integer at a key, or a default if the key is missing.
    pub(crate) fn integer_or(&self, key: Key, default: i64) -> Result<i64, KeyFault>
        requires { AreFound self.now }
        ensures { key_outcome (λ z. z) result ≡ with_default (key_name key) as_integer default (table_view self.now.table.now) }
    {
        integer_in(self.member(key), key, default)
    }

    /// The boolean at a key; false if the key is missing.
    pub(crate) fn flag(&self, key: Key) -> Result<bool, KeyFault>
        requires { AreFound self.now }
        ensures { key_outcome (λ b. b) result ≡ with_default (key_name key) as_bool false (table_view self.now.table.now) }
    {
        flag_of(self.member(key), key)
    }

    /// The text at a required key.
    pub(crate) fn text(&self, key: Key) -> Result<&'a str, KeyFault>
        requires { AreFound self.now }
        ensures { key_outcome (λ t. t.now) result ≡ rule.required (key_name key) as_str (table_view self.now.table.now) }
    {
        required_text(self.member(key), key)
    }

    /// The text at a key, or a default if the key is missing.
    pub(crate) fn text_or(&self, key: Key, default: &'static str) -> Result<&'a str, KeyFault>
        requires { AreFound self.now }
        ensures { key_outcome (λ t. t.now) result ≡ with_default (key_name key) as_str default.now (table_view self.now.table.now) }
    {
        text_in(self.member(key), key, default)
    }
}
