// Names in string tables.
ghost use Rattle.std.specs.Prelude.{◌≡◌, ◌≤◌, ◌==◌, length};
ghost use Rattle.std.specs.List.{position, position_or_len};
ghost use Rattle.std.specs.Str.{bytes_eq};
ghost use Rattle.elf64_records.specs.Names.{IsZeroEnd, name_at};

/// The name that begins at a place of a string table.
pub fn name_from(table: &[u8], start: usize) -> &[u8]
    requires { start ≤ length table.now }
    ensures { result.now ≡ name_at table.now start }
{
    let rest = &table[start..];
    &rest[..length_to_zero(rest)]
}

/// Whether the name that begins at a place of a string table is this one. No more of the table is read than the name given is long,
/// and a byte.
pub fn is_named(table: &[u8], start: usize, name: &[u8]) -> bool
    requires { start ≤ length table.now }
    ensures { result ≡ bytes_eq (name_at table.now start) name.now }
{
    let rest = &table[start..];
    let front = &rest[..(name.len() + 1).min(rest.len())];
    &front[..length_to_zero(front)] == name
}

fn length_to_zero(bytes: &[u8]) -> usize
    ensures value { result ≡ position_or_len (λ c. c == 0) bytes.now }
    ensures within { result ≤ length bytes.now }
{
    match place_of_zero(bytes) {
        Some(place) => place,
        None => bytes.len(),
    }
}

fn place_of_zero(bytes: &[u8]) -> Option<usize>
    ensures { result ≡ position (λ c. c == 0) bytes.now }
{
    bytes.iter().position(|c| *c == 0)
}

/// One past the place of the last zero byte of a string table, or 0 where there is none.
pub fn zero_end(table: &[u8]) -> usize
    ensures { IsZeroEnd table.now result }
{
    let mut end = table.len();
    while end > 0 && table[end - 1] != 0 {
        end -= 1;
    }
    end
}
