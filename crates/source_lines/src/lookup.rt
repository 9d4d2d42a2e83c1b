//! Lines of addresses, and addresses of lines.
ghost use Rattle.std.specs.Prelude.{◌≡◌};
ghost use Rattle.source_lines.specs.Tables.{
  address_at,
  address_behind,
  address_of_line,
  byte_before,
  is_line,
  is_row_of,
  is_file_named,
  line_at,
  seen_line,
  seen_place,
};

use crate::rows::{Row, SourcePlace};

/// The place of the last of some rows that doesn't stand above an address, if it has one.
pub fn place_at<'a>(rows: &[Row<'a>], address: u64) -> Option<SourcePlace<'a>>
    ensures { seen_place result ≡ line_at address rows.now }
{
    let mut found = None;
    for row in rows {
        if row.address <= address {
            found = row.place;
        }
    }
    found
}

/// The address of the last of some rows that doesn't stand above an address, or that address where there is none.
pub fn address_at(rows: &[Row<'_>], address: u64) -> u64
    ensures { result ≡ address_at address rows.now }
{
    let mut found = address;
    for row in rows {
        if row.address <= address {
            found = row.address;
        }
    }
    found
}

/// The address of the first of some rows that stands above an address, or 2^64 - 1 where there is none.
pub fn address_behind(rows: &[Row<'_>], address: u64) -> u64
    ensures { result ≡ address_behind address rows.now }
{
    for row in rows {
        if address < row.address {
            return row.address;
        }
    }
    u64::MAX
}

/// The byte of a path in front of so many last ones, and 0 where there is none.
fn byte_before(path: &[u8], count: usize) -> u8
    ensures { result ≡ byte_before path.now count }
{
    if count < path.len() {
        path[path.len() - 1 - count]
    } else {
        0
    }
}

/// Whether a name is the path of a file, or what stands at its end behind a slash.
fn is_file_named(path: &str, name: &str) -> bool
    ensures { result ≡ is_file_named path.now name.now }
{
    path == name
        || (path.as_bytes().ends_with(name.as_bytes())
            && byte_before(path.as_bytes(), name.len()) == b'/')
}

/// Whether a place is a line of a file that a name names.
fn is_line(place: SourcePlace<'_>, file: &str, line: u64) -> bool
    ensures { result ≡ is_line file.now line (seen_line place.entry) }
{
    place.line == line && is_file_named(place.file, file)
}

/// Whether a row is of a line of a file that a name names.
fn is_row_of(row: &Row<'_>, file: &str, line: u64) -> bool
    ensures { result ≡ is_row_of file.now line row.now }
{
    match row.place {
        None => false,
        Some(place) => is_line(place, file, line),
    }
}

/// The address of the first of some rows that is of a line of a file, which is named by its path or what stands at its
/// end behind a slash.
pub fn address_of_line(rows: &[Row<'_>], file: &str, line: u64) -> Option<u64>
    ensures { result ≡ address_of_line file.now line rows.now }
{
    for row in rows {
        if is_row_of(row, file, line) {
            return Some(row.address);
        }
    }
    None
}
