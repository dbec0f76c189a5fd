// The pivot of a row: the rightmost entry of greatest degree. A column number is never compared with a degree, so that
// each has a type of its own.
ghost use Rattle.std.specs.Prelude.{◌^◌, SomeIff, ◌≡◌, ◌↔◌, ◌+◌, ◌*◌, ◌-◌, ◌<◌, ◌≤◌, get_or, length, IsTrue};
ghost use Rattle.theory_lists.specs.Last.{last_nonzero};
ghost use Rattle.matrix_pivots.specs.Pivot.{value_of, row_of, values_of, IsPivotOf, Line, RowAsked, RowOfAsked, MatrixAsked};
ghost use Rattle.matrix_pivots.specs.Pivot.{AllPivots, least_degree, nonzero_rows, degrees_together};

use matrix_buffers::Shape;

// The column of the pivot, counted from 1; 0 for a zero row, as the paper has it: "A zero row has I = 0".
#[derive(Clone, Copy, PartialEq, Eq)]
pub struct PivotIndex(pub(crate) usize);

// The degree of the pivot and 1 more, so that a zero row, which has "D = -1", has 0.
#[derive(Clone, Copy, PartialEq, Eq, PartialOrd, Ord)]
pub struct PivotDegree(pub(crate) usize);

#[derive(Clone, Copy, PartialEq, Eq)]
pub struct Pivot {
    pub index: PivotIndex,
    pub degree: PivotDegree,
}

impl PivotIndex {
    pub const ZERO_ROW: PivotIndex = PivotIndex(0);

    pub fn is_zero_row(self) -> bool
        ensures { IsTrue result ↔ (self.0 ≡ 0) }
    {
        self == PivotIndex::ZERO_ROW
    }

    // The column, counted from 0.
    pub fn column(self) -> usize
        requires { 0 < self.0 }
        ensures { result ≡ self.0 - 1 }
    {
        let PivotIndex(from_1) = self;
        from_1 - 1
    }
}

impl PivotDegree {
    pub const ZERO_ROW: PivotDegree = PivotDegree(0);

    // "e = D of l minus D of k", of two rows that are not zero.
    pub fn over(self, other: PivotDegree) -> usize
        requires { other.0 ≤ self.0 }
        ensures { result ≡ self.0 - other.0 }
    {
        self.0 - other.0
    }

    // How many of the lowest places of an entry can be other than zero, in a row of this pivot degree: one more than it.
    pub fn places(self) -> usize
        ensures { result ≡ self.0 }
    {
        let PivotDegree(one_more) = self;
        one_more
    }

    // The degree of a row that is not zero.
    pub fn degree(self) -> usize
        requires { 0 < self.0 }
        ensures { result ≡ self.0 - 1 }
    {
        self.0 - 1
    }

    // The degree, where that of a zero row counts as 0.
    pub fn or_zero(self) -> usize
        ensures { result ≡ self.0 - 1 }
    {
        self.0.saturating_sub(1)
    }

    // The degree of x^e times the pivot.
    pub fn raised(self, e: usize) -> PivotDegree
        requires { self.0 + e < 2 ^ 64 }
        ensures { result.0 ≡ self.0 + e }
    {
        PivotDegree(self.0 + e)
    }

    // "The degree of row k in i's pivot column, less i's pivot degree", none where it is negative. The places in use of that entry of
    // row k are one more than its degree.
    pub fn excess(self, places: usize) -> Option<usize>
        ensures { SomeIff result (self.0 ≤ places) (places - self.0) }
    {
        places.checked_sub(self.0)
    }
}

// The rightmost entry of a row that has a coefficient of degree t; that of a zero row if none has.
fn rightmost(row: &[u16], shape: Shape, t: usize) -> PivotIndex
    requires { Line shape.m shape.w t row.now }
    ensures { result.0 ≡ last_nonzero shape.m (λ c. get_or row.now (c * shape.w + t) 0) }
{
    // A while, with its place carried along: a range that goes down takes half as much time again on the rows that are zero.
    let mut c = shape.m;
    let mut at = shape.m * shape.w + t;
    while 0 < c {
        at -= shape.w;
        if row[at] != 0 {
            return PivotIndex(c);
        }
        c -= 1;
    }
    PivotIndex::ZERO_ROW
}

impl Pivot {
    pub const ZERO_ROW: Pivot = Pivot {
        index: PivotIndex::ZERO_ROW,
        degree: PivotDegree::ZERO_ROW,
    };

    // The pivot of a row by itself, whatever matrix it is of. It is looked for from degree top - 1 down; from top on the row is zero.
    pub fn of(row: &[u16], shape: Shape, top: usize) -> Pivot
        requires { RowAsked shape.m shape.w top row.now }
        ensures { IsPivotOf shape.m (value_of shape.m shape.w row.now) result.index.0 result.degree.0 }
    {
        // A while too: a range that goes down takes half as much time again on the rows that are zero.
        let mut t = top;
        while 0 < t {
            let index = rightmost(row, shape, t - 1);
            if !index.is_zero_row() {
                return Pivot {
                    index,
                    degree: PivotDegree(t),
                };
            }
            t -= 1;
        }
        Self::ZERO_ROW
    }

    // The pivot of row l of a matrix, which is zero from degree top on.
    pub fn of_row(r: &[u16], shape: Shape, l: usize, top: usize) -> Pivot
        requires { RowOfAsked shape.m shape.w l top r.now }
        ensures { IsPivotOf shape.m (value_of shape.m shape.w (row_of shape.m shape.w r.now l)) result.index.0 result.degree.0 }
    {
        let s = shape.row();
        let at = l * s;
        let end = at + s;
        Pivot::of(&r[at..end], shape, top)
    }

    // "D·m + I", 0 for a zero row.
    pub fn value(self, m: usize) -> usize
        requires { (self.degree.0 - 1) * m + self.index.0 < 2 ^ 64 }
        ensures { result ≡ (self.degree.0 - 1) * m + self.index.0 }
    {
        self.degree.or_zero() * m + self.index.0
    }
}

// The pivots of all rows of a matrix. The places that no row has are those of zero rows: the promise (`AllPivots`) speaks of all eight, so
// that it is an array. What reads the pivots takes the n in front as a slice.
pub fn all(r: &[u16], shape: Shape) -> [Pivot; 8]
    requires { MatrixAsked shape.n shape.m shape.w r.now }
    ensures { AllPivots shape.n shape.m (values_of shape.m shape.w r.now) result }
{
    let mut pivots = [Pivot::ZERO_ROW; 8];
    for i in 0..shape.n {
        pivots[i] = Pivot::of_row(r, shape, i, shape.w);
    }
    pivots
}

// The least of the pivot degrees, or w where that is less.
pub fn least(pivots: &[Pivot], w: usize) -> usize
    ensures { result ≡ least_degree w pivots.now }
{
    pivots
        .iter()
        .fold(w, |least, pivot| least.min(pivot.degree.or_zero()))
}

// "Rank: the number of non-zero rows of R", by their pivots.
pub fn rank(pivots: &[Pivot]) -> usize
    ensures { result ≡ nonzero_rows pivots.now }
{
    pivots
        .iter()
        .filter(|pivot| pivot.index != PivotIndex::ZERO_ROW)
        .count()
}

// The pivot degrees of the rows together, that of a zero row counting as 0.
pub fn degree_sum(pivots: &[Pivot]) -> usize
    requires { degrees_together pivots.now < 2 ^ 64 }
    ensures { result ≡ degrees_together pivots.now }
{
    pivots.iter().map(|pivot| pivot.degree.or_zero()).sum()
}
