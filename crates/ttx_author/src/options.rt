//! The national options.

ghost use Rattle.std.specs.Prelude.{◌≡◌, ◌<◌, ◌≤◌, MatchOption, IfSome, option_map};
ghost use Rattle.std.specs.List.{position};
ghost use Rattle.std.specs.Str.{bytes_eq};
ghost use Rattle.ttx_author.specs.Options.{option_number, option_names};

/// The national option of a page: the characters that thirteen codes show (C12 to C14; EN 300 706, 9.3.1.3).
#[derive(Clone, Copy, PartialEq, Eq)]
pub enum NationalOption {
    English,
    German,
    /// Swedish, Finnish, Hungarian.
    Swedish,
    Italian,
    French,
    /// Spanish, Portuguese.
    Spanish,
    /// Czech, Slovak.
    Czech,
    /// Option 7, which has the characters of English.
    Seventh,
}

static NAMES: [&str; 7] = [
    "english", "german", "swedish", "italian", "french", "spanish", "czech",
];

fn place_among(names: &[&str], name: &str) -> Option<usize>
    ensures { result ≡ position (λ known. bytes_eq known.now name.now) names.now }
{
    names.iter().position(|known| *known == name)
}

// The index of a name, 0 to 6.
fn index_of(name: &str) -> Option<usize>
    ensures place { result ≡ position (λ known. bytes_eq known name.now) option_names }
    ensures range { IfSome result (λ index. index < 7) }
{
    place_among(NAMES.as_slice(), name)
}

impl NationalOption {
    /// The option with this number; `None` from 8 on.
    pub fn numbered(number: usize) -> Option<NationalOption>
        ensures { MatchOption result (8 ≤ number) (λ option. option_number option ≡ number) }
    {
        match number {
            0 => Some(NationalOption::English),
            1 => Some(NationalOption::German),
            2 => Some(NationalOption::Swedish),
            3 => Some(NationalOption::Italian),
            4 => Some(NationalOption::French),
            5 => Some(NationalOption::Spanish),
            6 => Some(NationalOption::Czech),
            7 => Some(NationalOption::Seventh),
            _ => None,
        }
    }

    /// The option with this name: `english`, `german`, `swedish`, `italian`, `french`, `spanish` or `czech`.
    pub fn named(name: &str) -> Option<NationalOption>
        ensures { option_map option_number result ≡ position (λ known. bytes_eq known name.now) option_names }
    {
        match index_of(name) {
            None => None,
            Some(index) => NationalOption::numbered(index),
        }
    }

    /// The number of the option, 0 to 7.
    pub fn number(self) -> u8
        ensures value { result ≡ option_number self }
        ensures range { result < 8 }
    {
        match self {
            NationalOption::English => 0,
            NationalOption::German => 1,
            NationalOption::Swedish => 2,
            NationalOption::Italian => 3,
            NationalOption::French => 4,
            NationalOption::Spanish => 5,
            NationalOption::Czech => 6,
            NationalOption::Seventh => 7,
        }
    }
}
