//! Facts.
ghost use Rattle.std.specs.Prelude.{◌≡◌, IfOk, fold, refl};
ghost use Rattle.std.specs.Hash as fed;
ghost use Rattle.std.specs.Hash.FoldHasher as folding;
ghost use Rattle.std.specs.Cmp.{partial_equiv_from_equiv, po};
ghost use Rattle.std.specs.Ordering.{as_partial_cmp};
ghost use Rattle.cb_facts.specs.Facts.{ordered_fact, template_fact, content_of, fact_eq};
ghost use Rattle.cb_facts.specs.Internal.FactOrder.{content_writes, content_cmp, fact_cmp, hash_of, mix_of, rest_cmp};
ghost use Rattle.cb_facts.specs.Internal.{body_fact};
ghost use Rattle.cb_facts.specs.Internal.FactLaws.{fact_equiv, fact_fed, fact_tied, fact_total};

use crate::multifield::Multifield;
use crate::name::Name;
use crate::value::Value;
use cb_forms::NoMemory;
use std::alloc::{AllocError, Global};
use std::cmp::Ordering;
use std::fmt;
use std::hash::{FoldHasher, Hash, Hasher};
use std::marker::Model;
use std::rc::Rc;

/// What stands in a fact after its relation.
#[derive(Debug, PartialEq, Eq, Drop)]
pub enum Content {
    /// The fields of an ordered fact, in their order.
    Fields(Multifield),
    /// The slots of a template's fact, each name with its value, in the template's order.
    Slots(Vec<(Name, Value)>),
}

impl Content {
    fn hash_into(&self, hasher: &mut FoldHasher)
        ensures { hasher.new
            ≡ fold folding.write hasher.old (content_writes (content_of self.now)) }
    {
        match self {
            Content::Fields(fields) => fields.hash(hasher),
            Content::Slots(slots) => slots.as_slice().hash(hasher),
        }
    }

    fn order(&self, other: &Content) -> Ordering
        ensures { result ≡ content_cmp (content_of self.now) (content_of other.now) }
    {
        match self {
            Content::Fields(fields) => match other {
                Content::Fields(others) => fields.cmp(others),
                Content::Slots(_) => Ordering::Less,
            },
            Content::Slots(slots) => match other {
                Content::Fields(_) => Ordering::Greater,
                Content::Slots(others) => slots.as_slice().cmp(others.as_slice()),
            },
        }
    }
}

#[derive(Debug, Drop)]
struct Body {
    hash: u64,
    relation: Name,
    content: Content,
}

impl Body {
    fn order(&self, other: &Body) -> Ordering
        ensures { result ≡ rest_cmp (body_fact self.now) (body_fact other.now) }
    {
        match self.relation.cmp(&other.relation) {
            Ordering::Equal => self.content.order(&other.content),
            unequal => unequal,
        }
    }
}

/// A fact: its relation and its content, which never change.
///
/// A clone shares both. It takes no memory, and is refused only where the count of its sharers is full. Two facts are
/// equal where their relations and their contents are. Hashing a fact takes constant time. Facts are in order by their
/// hashes, and those with the same hash by their relations and their contents: so two facts are told apart by their hashes,
/// and where a script makes these equal the order still tells the facts apart.
///
/// Contracts see its relation's bytes and its content.
#[derive(Drop)]
pub struct Fact {
    body: Rc<Body>,
}

impl Model for Fact {
    ghost use Rattle.std.specs.Prelude.{◌≡◌};
    ghost use Rattle.std.specs.Rc.{rc_value};
    ghost use Rattle.cb_facts.specs.Facts.{FactValue};
    ghost use Rattle.cb_facts.specs.Internal.{body_fact, IsHashOf};

    ghost Value = { FactValue };

    ghost view = { λ f. body_fact (rc_value f.body) };

    ghost invariant = { λ f. IsHashOf (rc_value f.body).hash (rc_value f.body) };
}

impl Fact {
    /// The ordered fact of a relation with these fields, both taken over. Growth is refused as `NoMemory`.
    pub fn ordered(alloc: Global, relation: Name, fields: Multifield) -> Result<Fact, NoMemory>
        ensures { IfOk result (λ fact. fact ≡ ordered_fact relation fields) }
    {
        Fact::new(alloc, relation, Content::Fields(fields))
    }

    /// The fact of a template with this name, with these slots, both taken over: all slots of the template, in its
    /// order, which nothing here checks. Growth is refused as `NoMemory`.
    pub fn with_slots(
        alloc: Global,
        relation: Name,
        slots: Vec<(Name, Value)>,
    ) -> Result<Fact, NoMemory>
        ensures { IfOk result (λ fact. fact ≡ template_fact relation slots.items) }
    {
        Fact::new(alloc, relation, Content::Slots(slots))
    }

    fn new(alloc: Global, relation: Name, content: Content) -> Result<Fact, NoMemory>
        ensures { IfOk result
            (λ fact. fact ≡ record { relation = relation; content = content_of content }) }
    {
        let hash = hash_of(&relation, &content);
        let body = Body {
            hash,
            relation,
            content,
        };
        Ok(Fact {
            body: Rc::new(alloc, body)?,
        })
    }

    /// A number that depends on the fact alone, and that few other facts have: half of its hash. It takes constant time.
    pub(crate) fn mix(&self) -> u32
        ensures { result ≡ mix_of self.now }
    {
        (self.body.hash >> 32) as u32
    }

    /// The relation's bytes.
    pub fn relation(&self) -> &[u8]
        ensures { result.now ≡ self.now.relation }
    {
        self.body.relation.as_slice()
    }

    /// The relation.
    pub fn relation_name(&self) -> &Name
        ensures { result.now ≡ self.now.relation }
    {
        &self.body.relation
    }

    /// What stands after the relation.
    pub fn content(&self) -> &Content
        ensures { content_of result.now ≡ self.now.content }
    {
        &self.body.content
    }
}

#[tactic(auto, unfolding(crate::specs::Internal::FactOrder::hash_from))]
fn hash_of(relation: &Name, content: &Content) -> u64
    ensures { result
        ≡ hash_of (record { relation = relation.now; content = content_of content.now }) }
{
    let mut hasher = FoldHasher::default();
    hasher.write(relation.as_slice());
    content.hash_into(&mut hasher);
    hasher.finish()
}

impl Clone for Fact {
    ghost is_clone = { λ f copy. copy ≡ f };

    fn clone(&self) -> Result<Fact, AllocError> {
        let body = self.body.clone()?;
        Ok(Fact { body })
    }
}

impl PartialEq for Fact {
    ghost eq = { fact_eq };

    ghost laws = { partial_equiv_from_equiv fact_equiv };

    fn eq(&self, other: &Fact) -> bool {
        if self.body.hash != other.body.hash {
            return false;
        }
        self.body.relation == other.body.relation && self.body.content == other.body.content
    }
}

impl Eq for Fact {
    ghost laws = { fact_equiv };
}

impl PartialOrd for Fact {
    ghost partial_cmp = { as_partial_cmp fact_cmp };

    ghost laws = { po fact_total fact_tied };

    fn partial_cmp(&self, other: &Fact) -> Option<Ordering> {
        Some(self.cmp(other))
    }
}

impl Ord for Fact {
    ghost cmp = { fact_cmp };

    ghost total = { fact_total };

    ghost matches_partial_cmp = { λ x y. refl };

    ghost matches_eq = { fact_tied };

    fn cmp(&self, other: &Fact) -> Ordering {
        match self.body.hash.cmp(&other.body.hash) {
            Ordering::Equal => self.body.order(&other.body),
            unequal => unequal,
        }
    }
}

impl Hash for Fact {
    ghost hash_input = { λ f. fed.u64 (hash_of f) };

    ghost respects_eq = { fact_fed };

    fn hash<H: Hasher>(&self, state: &mut H) {
        state.write_u64(self.body.hash);
    }
}

impl fmt::Debug for Fact {
    fn fmt<W: fmt::Write>(&self, f: &mut fmt::Formatter<W>) -> fmt::Result {
        self.body.fmt(f)
    }
}
