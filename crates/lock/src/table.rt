ghost use Rattle.std.specs.Prelude.{◌≡◌, length};

// The records of the eight cards that there may be: an array, since a board has no heap.
#[derive(Drop)]
pub struct Table<T> {
    pub(crate) records: [T; 8],
    ghost whole: { length records ≡ 8 },
}
