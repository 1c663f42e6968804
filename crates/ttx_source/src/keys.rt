//! The keys of a service definition.

ghost use Rattle.std.specs.Prelude.{◌≡◌, ◌<◌, [], map, is_some, slice_index_or, IfSome};
ghost use Rattle.std.specs.List.{position};
ghost use Rattle.std.specs.Str.{bytes_eq};
ghost use Rattle.ttx_source.specs.KeyFaults.{key_name};
ghost use Rattle.ttx_source.specs.Accepted.{takes_of, taken_in, accepted_at, is_key_name, key_names};

/// A key, by the last part of its name. Those of a page come first.
#[derive(Clone, Copy)]
pub enum Key {
    Number,
    Sub,
    Head,
    Rows,
    Often,
    Option,
    Newsflash,
    Subtitle,
    Suppress,
    Update,
    Interrupted,
    Inhibit,
    Links,
    Row24,
    Crc,
    Within,
    Stays,
    Lines,
    Serial,
    Info,
    Designation,
    Initial,
    Network,
    Halves,
    Mjd,
    Utc,
    Text,
    Page,
}

// The name of each key, in the order of `Key`, and what the key takes.
static KEYS: [(&str, &str); 28] = [
    ("number", "a text: a page number as \"100\""),
    ("sub", "a text: a subcode as \"0001\""),
    ("head", "a text of at most 24 characters"),
    (
        "rows",
        "a table of texts of at most 40 characters at keys from \"1\" to \"24\"",
    ),
    ("often", "1, 2, 4 or 8"),
    ("option", "an integer from 0 to 7"),
    ("newsflash", "true or false"),
    ("subtitle", "true or false"),
    ("suppress", "true or false"),
    ("update", "true or false"),
    ("interrupted", "true or false"),
    ("inhibit", "true or false"),
    (
        "links",
        "an array of at most six texts, each a page as \"100\" or \"100/0001\", or nothing",
    ),
    ("row24", "true or false"),
    ("crc", "a text of four hexadecimal digits"),
    (
        "within",
        "seconds from 0.02 to 20000, an integer or a float",
    ),
    ("stays", "seconds from 0.02 to 20000, an integer or a float"),
    ("lines", "an integer from 1 to 32"),
    ("serial", "true or false"),
    ("info", "a table"),
    ("designation", "0 or 1"),
    (
        "initial",
        "a text: a page as \"100\" or \"100/0001\", or nothing",
    ),
    ("network", "a text of four hexadecimal digits"),
    ("halves", "an integer from -31 to 31"),
    ("mjd", "an integer from 0 to 99999"),
    ("utc", "an integer from 0 to 999999, the digits hhmmss"),
    ("text", "a text of at most 20 characters"),
    ("page", "an array of at most 2000 tables"),
];

impl Key {
    /// The name of the key.
    pub fn name(self) -> &'static str
        ensures { result.now ≡ key_name self }
    {
        KEYS[self as usize].0
    }

    /// The index of the key, in the order of `Key`.
    #[tactic(auto, unfolding(crate::specs::Accepted::key_names, crate::specs::Accepted::all_keys))]
    pub(crate) fn place(self) -> usize
        ensures most { result < 28 }
        ensures name { slice_index_or key_names result [] ≡ key_name self }
    {
        self as usize
    }

    /// What the key takes, in words.
    pub fn takes(self) -> &'static str
        ensures { result.now ≡ takes_of self }
    {
        KEYS[self as usize].1
    }
}

// The index of the key of this name, among these names and words.
fn place_among(keys: &[(&'static str, &'static str)], name: &str) -> Option<usize>
    ensures { result ≡ position (λ k. bytes_eq k.0.now name.now) keys.now }
{
    keys.iter().position(|key| key.0 == name)
}

/// The index of the key of this name, in the order of `Key`; `None` if no key has it.
pub(crate) fn place_of(name: &str) -> Option<usize>
    ensures among { is_some result ≡ is_key_name name.now }
    ensures place { IfSome result (λ i. (i < 28) × (slice_index_or key_names i [] ≡ name.now)) }
{
    place_among(KEYS.as_slice(), name)
}

// What the key of this name takes, of these names and words.
fn taken_among(keys: &[(&'static str, &'static str)], name: &str) -> &'static str
    ensures { result.now ≡ taken_in (map (λ k. (k.0.now, k.1.now)) keys.now) name.now }
{
    for key in keys {
        if key.0 == name {
            return key.1;
        }
    }
    "no value"
}

/// What the key of this name takes, in words for an error message.
pub fn accepted(key: &str) -> &'static str
    ensures { result.now ≡ accepted_at key.now }
{
    taken_among(KEYS.as_slice(), key)
}
