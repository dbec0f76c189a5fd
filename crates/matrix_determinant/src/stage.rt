// The sizes that go together through a stage.
ghost use Rattle.std.specs.Prelude.{◌≡◌, suc, ◌-◌, ◌<◌};
ghost use Rattle.matrix_determinant.specs.Sizes.{Sizes, places, cells};

// A stage of m columns and m + 1 rows: their cells have w places, and those of the column that is parted from them `wide` places.
#[derive(Clone, Copy)]
pub(crate) struct Stage {
    pub(crate) m: usize,
    pub(crate) w: usize,
    pub(crate) wide: usize,
    pub(crate) ghost sizes: { Sizes m w wide },
}

impl Stage {
    pub(crate) fn rows(self) -> usize
        ensures { result ≡ suc self.m }
    {
        self.m + 1
    }

    // The places of its columns in their buffer.
    pub(crate) fn places(self) -> usize
        ensures { result ≡ places self.m self.w }
    {
        self.rows() * (self.m * self.w)
    }

    // And those of the parted column.
    pub(crate) fn cells(self) -> usize
        ensures { result ≡ cells self.m self.wide }
    {
        self.rows() * self.wide
    }

    // The next one has a row and a column less.
    pub(crate) fn smaller(self) -> Stage
        requires { 0 < self.m }
        ensures columns { result.m ≡ self.m - 1 }
        ensures places { result.w ≡ self.w }
        ensures widened { result.wide ≡ self.wide }
    {
        Stage {
            m: self.m - 1,
            w: self.w,
            wide: self.wide,
        }
    }
}
