//! The names of the files.
ghost use Rattle.std.specs.Prelude.{◌≡◌, ◌<◌, [], slice_index_or};
ghost use Rattle.std.specs.List.{position};
ghost use Rattle.std.specs.Str.{bytes_eq};
ghost use Rattle.eid_record.specs.Layout.{file_count};
ghost use Rattle.eid_perso.specs.Names.{file_names, group_named};

use eid_record::FILES;

/// Each file's name, in the order of the files' numbers.
const FILE_NAMES: [&str; FILES] = [
    "card_access",
    "card_security",
    "dg1",
    "dg2",
    "dg3",
    "dg4",
    "dg5",
    "dg6",
    "dg7",
    "dg8",
    "dg9",
    "dg10",
    "dg11",
    "dg12",
    "dg13",
    "dg14",
    "dg15",
    "dg16",
    "dg17",
    "dg18",
    "dg19",
    "dg20",
    "dg21",
];

/// The name of the file of this number.
pub fn file_name(file: usize) -> &'static str
    requires { file < file_count }
    ensures { result.now ≡ slice_index_or file_names file [] }
{
    FILE_NAMES[file]
}

/// The place of a name among names.
fn place_among(names: &[&str], name: &str) -> Option<usize>
    ensures { result ≡ position (λ other. bytes_eq other.now name.now) names.now }
{
    names.iter().position(|other| *other == name)
}

/// The number of the data group of this name, from 1 to 21.
pub fn group_named(name: &str) -> Option<u8>
    ensures { result ≡ group_named name.now }
{
    match place_among(&FILE_NAMES[2..], name) {
        Some(place) => Some(place as u8 + 1),
        None => None,
    }
}
