// Words of a stored record, as integers and as floats, when two floats are equal, and the tally of the calls.
ghost use Rattle.std.specs.Prelude.{◌≡◌, ◌+◌, ◌-◌, ◌≤◌, ◌<◌, ◌++◌, ◌↔◌, IsTrue, length, replicate};
ghost use Rattle.replay.specs.Words.{word_of, float_at, AreHeld, Decides, differ_in};

// The sign bit, and the bits of infinity: a NaN's are above these, its sign aside.
const SIGN: u64 = 0x8000_0000_0000_0000;

const INFINITY: u64 = 0x7ff0_0000_0000_0000;

// A stored record: eighteen words, of which those that it does not have are 0.
#[derive(Clone, Copy)]
pub struct Record {
    pub bytes: [u8; 144],
}

impl Record {
    // The record of these bytes.
    pub fn new(stored: &[u8]) -> Record
        requires { length stored.now ≤ 144 }
        ensures { result.bytes ≡ stored.now ++ replicate (144 - length stored.now) 0 }
    {
        let mut bytes = [0; 144];
        bytes[..stored.len()].copy_from_slice(stored);
        Record { bytes }
    }

    // The word number i, its lowest byte first; 0 past the last, as for each that the record does not have.
    pub fn word(&self, i: usize) -> u64
        ensures { result ≡ word_of self.now.bytes i }
    {
        let (words, _) = self.bytes.as_chunks::<8>();
        u64::from_le_bytes(words.get(i).copied().unwrap_or([0; 8]))
    }

    // The float of a word: a NaN for every NaN pattern.
    #[tactic(auto, using(crate::proofs::Floats::pattern_cases))]
    pub fn float(&self, i: usize) -> f64
        ensures { result ≡ float_at self.now.bytes i }
    {
        let bits = self.word(i);
        if bits % SIGN > INFINITY {
            f64::NAN
        } else {
            f64::from_bits(bits)
        }
    }

    // Whether the words from 1 on are those floats.
    pub fn are_held(&self, stores: &[f64]) -> bool
        ensures { IsTrue result ↔ AreHeld stores.now self.now.bytes }
    {
        stores
            .iter()
            .enumerate()
            .all(|(k, x)| self.holds(k + 1, *x))
    }

    // Whether word i is that float.
    pub fn holds(&self, i: usize, x: f64) -> bool
        ensures { Decides result x (float_at self.now.bytes i) }
    {
        same(x, self.float(i))
    }
}

// Equal by bits, every NaN as one value. By hand: floats are data here, and a derive's `==` has a NaN unequal to itself and -0 equal to +0.
#[tactic(auto, using(crate::proofs::Floats::equal_cases))]
pub fn same(x: f64, y: f64) -> bool
    ensures { Decides result x y }
{
    if x.is_nan() {
        return y.is_nan();
    }
    !y.is_nan() && x.to_bits() == y.to_bits()
}

// How many calls were replayed, and how many of them differ.
#[derive(Clone, Copy)]
pub struct Tally {
    pub calls: u64,
    pub differ: u64,
    ghost within: { differ ≤ calls },
}

impl Tally {
    // Before the first call.
    pub fn new() -> Tally
        ensures calls { result.calls ≡ 0 }
        ensures differ { result.differ ≡ 0 }
    {
        Tally {
            calls: 0,
            differ: 0,
        }
    }

    // One call more, and one more that differs unless it is equal.
    pub fn counted(self, equal: bool) -> Tally
        requires { self.calls < u64.MAX }
        ensures calls { result.calls ≡ self.calls + 1 }
        ensures differ { result.differ ≡ differ_in self.differ equal }
    {
        Tally {
            calls: self.calls + 1,
            differ: self.differ + u64::from(!equal),
        }
    }
}
