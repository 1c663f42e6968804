//! The names of control codes.

ghost use Rattle.std.specs.Prelude.{◌≡◌, ◌<◌, ◌≤◌, [], IfSome, map, slice_index_or, length};
ghost use Rattle.std.specs.List.{position};
ghost use Rattle.std.specs.Str.{bytes_eq};
ghost use Rattle.ttx_author.specs.Tags as rule;

/// A control code, 00 to 1F, and the number of cells that it takes.
#[derive(Clone, Copy)]
pub struct Tag {
    pub code: u8,
    pub cells: u8,
}

// The name of each code, 00 to 1F, in order; then those of the two boxes.
static NAMES: [&str; 34] = [
    "00",
    "red",
    "green",
    "yellow",
    "blue",
    "magenta",
    "cyan",
    "white",
    "flash",
    "steady",
    "0A",
    "0B",
    "normal",
    "double",
    "0E",
    "0F",
    "10",
    "mosaic red",
    "mosaic green",
    "mosaic yellow",
    "mosaic blue",
    "mosaic magenta",
    "mosaic cyan",
    "mosaic white",
    "conceal",
    "contiguous",
    "separated",
    "1B",
    "black background",
    "new background",
    "hold",
    "release",
    "/box",
    "box",
];

fn nth_name<'a>(names: &[&'a str], index: usize) -> &'a str
    requires { index < length names.now }
    ensures { result.now ≡ slice_index_or (map (λ name. name.now) names.now) index [] }
{
    names[index]
}

/// The name at an index: that of a code, 00 to 1F, of the end of a box (32) or of its beginning (33).
pub(crate) fn name_at(index: usize) -> &'static str
    requires { index < 34 }
    ensures { result.now ≡ slice_index_or rule.names index [] }
{
    nth_name(NAMES.as_slice(), index)
}

// Whether characters are those of a name in ASCII.
fn is_named(known: &str, name: &[char]) -> bool
    ensures { result ≡ bytes_eq known.now name.now }
{
    let known = known.as_bytes();
    if known.len() != name.len() {
        return false;
    }
    for i in 0..known.len() {
        if u32::from(known[i]) != u32::from(name[i]) {
            return false;
        }
    }
    true
}

// The index of the first of some names that has these characters.
fn place_among(names: &[&str], name: &[char]) -> Option<usize>
    ensures { result ≡ position (λ known. bytes_eq known.now name.now) names.now }
{
    names.iter().position(|known| is_named(known, name))
}

// The index of a name, 0 to 33.
fn index_of(name: &[char]) -> Option<usize>
    ensures place { result ≡ position (λ known. bytes_eq known name.now) rule.names }
    ensures range { IfSome result (λ index. index < 34) }
{
    place_among(NAMES.as_slice(), name)
}

/// The control code with a name, such as `red`, and its cells. `None` if no code has it.
#[tactic(auto, unfolding(crate::specs::Tags::tag_of))]
pub fn tag_of(name: &[char]) -> Option<Tag>
    ensures value { result ≡ rule.tag_of name.now }
    ensures range { IfSome result (λ tag. (tag.code < 32) × (tag.cells ≤ 2)) }
{
    match index_of(name) {
        None => None,
        Some(index) if index < 32 => Some(Tag {
            code: index as u8,
            cells: 1,
        }),
        Some(index) => Some(Tag {
            code: (index - 22) as u8,
            cells: 2,
        }),
    }
}
