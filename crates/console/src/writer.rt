// A lent buffer that is filled from a place on, as far as there is room.
ghost use Rattle.std.specs.Prelude.{◌≡◌, [], ◌∷◌};

// The buffer, and the place where the next item is put.
#[derive(Drop)]
pub struct Writer<'a, T> {
    pub out: &'a mut [T],
    pub place: usize,
}

impl<'a, T: Copy> Writer<'a, T> {
    ghost use Rattle.console.specs.Private.Pieces.{Puts};

    pub fn at(out: &'a mut [T], place: usize) -> Writer<'a, T>
        ensures same { result.out.ghost_name ≡ out.entry.ghost_name }
        ensures out { result.out.now ≡ out.old }
        ensures place { result.place ≡ place }
    {
        Writer { out, place }
    }

    pub fn put(&mut self, item: T)
        ensures { Puts self.old (item ∷ []) self.new }
    {
        if self.place < self.out.len() {
            self.out[self.place] = item;
            self.place += 1;
        }
    }

    pub fn put_all(&mut self, items: &[T])
        ensures { Puts self.old items.now self.new }
    {
        if self.place < self.out.len() {
            let n = items.len().min(self.out.len() - self.place);
            self.out[self.place..self.place + n].copy_from_slice(&items[..n]);
            self.place += n;
        }
    }
}
