// A member of a library.
ghost use Rattle.std.specs.Prelude.{◌≤◌, length};
ghost use Rattle.elf64_records.specs.declared.headers.TheConstants.{FILE_LIMIT};

/// A member of a library.
#[derive(Clone, Copy, Debug)]
pub struct Member<'a> {
    /// The name.
    pub name: &'a str,
    /// The bytes.
    pub bytes: &'a [u8],
    ghost short: { length bytes.now ≤ FILE_LIMIT },
}
