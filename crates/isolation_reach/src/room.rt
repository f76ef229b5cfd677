// Memory, the marks on its words, and room to work in.
ghost use Rattle.std.specs.Prelude.{◌≡◌, length};

// Kept: a word for a mark: the list is that of `celltimber_covers`, in C.
// `tables` and `under` are the lists to work in; they have the length of memory.
#[derive(Drop)]
pub(crate) struct Room<'a> {
    pub memory: &'a [u64],
    pub marks: &'a mut [u64],
    pub tables: &'a mut [u64],
    pub under: &'a mut [u64],
    ghost tables_fit: { length tables.now ≡ length memory.now },
    ghost under_fit: { length under.now ≡ length memory.now },
}
