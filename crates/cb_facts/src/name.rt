//! Bytes that values and facts share.
ghost use Rattle.std.specs.Prelude.{◌≡◌, ◌<◌, IfOk, nat_eq, refl};
ghost use Rattle.std.specs.Ordering.{nat_cmp, as_partial_cmp};
ghost use Rattle.std.specs.Hash as fed;
ghost use Rattle.std.specs.Hash.{same_Alike};
ghost use Rattle.std.specs.Cmp.Lexicographic.{pointwise, slice_cmp, bytes_decides};
ghost use Rattle.std.specs.Cmp.{partial_order_from_own_ties};
ghost use Rattle.std.specs.Cmp.Rules.{comparing};
ghost use Rattle.std.proofs.Common.{rules};
ghost use Rattle.cb_facts.specs.Internal.Hashes.{hash_of_bytes};
ghost use Rattle.cb_facts.specs.Internal.ShortNames.{short_number};
ghost use Rattle.cb_facts.specs.NameMarks.{mark_of};

use cb_forms::{ByteString, NoMemory};
use std::alloc::{AllocError, Global};
use std::cmp::Ordering;
use std::fmt;
use std::hash::{FoldHasher, Hash, Hasher};
use std::marker::Model;
use std::rc::Rc;

/// Bytes, with their hash and their number.
#[derive(Drop)]
struct Hashed {
    hash: u64,
    /// The number that up to seven bytes make; 0 for more.
    number: u64,
    bytes: ByteString,
}

/// The bytes of a symbol, a string, a relation or a variable. Nothing checks them as UTF-8.
///
/// A clone shares the bytes. It takes no memory, and is refused only where the count of its sharers is full. Two names
/// compare by their bytes in order, as Rust compares slices. `==` compares names of up to seven bytes by a number that they
/// keep, and longer ones by their hashes first.
///
/// Contracts see its list of bytes.
#[derive(Drop)]
pub struct Name {
    shared: Rc<Hashed>,
}

impl Model for Name {
    ghost use Rattle.std.specs.Prelude.{◌≡◌, List, ℕ};
    ghost use Rattle.std.specs.Rc.{rc_value};
    ghost use Rattle.cb_facts.specs.Internal.Hashes.{hash_of_bytes};
    ghost use Rattle.cb_facts.specs.Internal.ShortNames.{short_number};

    ghost Value = { List ℕ };

    ghost view = { λ n. (rc_value n.shared).bytes };

    ghost invariant = { λ n. ((rc_value n.shared).hash ≡ hash_of_bytes (rc_value n.shared).bytes) × ((rc_value n.shared).number ≡ short_number (rc_value n.shared).bytes) };
}

impl Name {
    /// These bytes, of which there may be none, copied. Growth is refused as `NoMemory`.
    pub fn new(alloc: Global, bytes: &[u8]) -> Result<Name, NoMemory>
        ensures { IfOk result (λ n. n ≡ bytes.now) }
    {
        Name::with_hash(alloc, bytes, hash_of_bytes(bytes))
    }

    /// The same, where the hash of the bytes is known.
    pub(crate) fn with_hash(alloc: Global, bytes: &[u8], hash: u64) -> Result<Name, NoMemory>
        requires { hash ≡ hash_of_bytes bytes.now }
        ensures { IfOk result (λ n. n ≡ bytes.now) }
    {
        let number = number_of_bytes(bytes);
        let bytes = ByteString::new(alloc, bytes)?;
        Ok(Name {
            shared: Rc::new(
                alloc,
                Hashed {
                    hash,
                    number,
                    bytes,
                },
            )?,
        })
    }

    /// Whether another name shares the bytes.
    pub(crate) fn is_shared(&self) -> bool {
        Rc::strong_count(&self.shared) > 1
    }

    /// The hash of the bytes.
    pub(crate) fn hash_code(&self) -> u64
        ensures { result ≡ hash_of_bytes self.now }
    {
        self.shared.hash
    }

    /// One of 64 numbers, which depends on the bytes alone, and by which names are mostly told apart. It takes constant time.
    pub fn mark(&self) -> u32
        ensures is { result ≡ mark_of self.now }
        ensures below { result < 64 }
    {
        (self.hash_code() % 64) as u32
    }

    /// The bytes.
    pub fn as_slice(&self) -> &[u8]
        ensures { result.now ≡ self.now }
    {
        self.shared.bytes.as_slice()
    }
}

/// The hash of bytes.
#[tactic(auto, unfolding(crate::specs::Internal::Hashes::hash_of_bytes))]
pub(crate) fn hash_of_bytes(bytes: &[u8]) -> u64
    ensures { result ≡ hash_of_bytes bytes.now }
{
    let mut hasher = FoldHasher::default();
    hasher.write(bytes);
    hasher.finish()
}

/// Whether the bytes are the same. It is apart from `==`, which mostly ends before, so that this is small.
fn have_same_bytes(one: &Name, other: &Name) -> bool
    ensures { result ≡ pointwise nat_eq one.now other.now }
{
    one.as_slice() == other.as_slice()
}

/// The number that up to seven bytes make, from which they can be read again, and which is not 0; 0 for more.
fn number_of_bytes(bytes: &[u8]) -> u64
    ensures { result ≡ short_number bytes.now }
{
    if bytes.len() > 7 {
        return 0;
    }
    let mut number: u64 = 1;
    let mut left = bytes;
    while let Some((last, others)) = left.split_last() {
        number = number * 256 + *last as u64;
        left = others;
    }
    number
}

/// The order of bytes. Mostly the first decide it.
fn order(own: &[u8], others: &[u8]) -> Ordering
    ensures { result ≡ slice_cmp nat_cmp own.now others.now }
{
    if let (Some((a, _)), Some((b, _))) = (own.split_first(), others.split_first()) {
        if a != b {
            return a.cmp(b);
        }
    }
    own.cmp(others)
}

impl Clone for Name {
    ghost is_clone = { λ n copy. copy ≡ n };

    fn clone(&self) -> Result<Name, AllocError> {
        let shared = self.shared.clone()?;
        Ok(Name { shared })
    }
}

impl PartialEq for Name {
    ghost eq = { pointwise nat_eq };

    ghost laws = { Prim.search (comparing, rules) };

    #[tactic(auto, using(crate::proofs::Hashes::apart, crate::proofs::ShortNames::told))]
    fn eq(&self, other: &Name) -> bool {
        if self.shared.number != 0 {
            return self.shared.number == other.shared.number;
        }
        self.hash_code() == other.hash_code() && have_same_bytes(self, other)
    }
}

impl Eq for Name {
    ghost laws = { Prim.search (comparing, rules) };
}

impl PartialOrd for Name {
    ghost partial_cmp = { as_partial_cmp (slice_cmp nat_cmp) };

    ghost laws = { partial_order_from_own_ties (Prim.search (comparing, rules)) (Prim.search (comparing, rules)) };

    fn partial_cmp(&self, other: &Name) -> Option<Ordering> {
        Some(self.cmp(other))
    }
}

impl Ord for Name {
    ghost cmp = { slice_cmp nat_cmp };

    ghost total = { Prim.search (comparing, rules) };

    ghost matches_partial_cmp = { λ x y. refl };

    ghost matches_eq = { Prim.search (comparing, rules) };

    fn cmp(&self, other: &Name) -> Ordering {
        order(self.as_slice(), other.as_slice())
    }
}

impl Hash for Name {
    // The hash that it has already is all that a hasher takes.
    ghost hash_input = { λ n. fed.u64 (hash_of_bytes n) };

    ghost respects_eq = { (same_Alike (λ n. fed.u64 (hash_of_bytes n)) bytes_decides).fed };

    fn hash<H: Hasher>(&self, state: &mut H) {
        state.write_u64(self.hash_code());
    }
}

impl fmt::Debug for Name {
    fn fmt<W: fmt::Write>(&self, f: &mut fmt::Formatter<W>) -> fmt::Result {
        self.as_slice().fmt(f)
    }
}
