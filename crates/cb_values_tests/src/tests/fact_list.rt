//! The fact list.
use cb_forms::NoMemory;
use cb_values::{Fact, FactList, Multifield, Name, Single, Value, fact_text, quoted_text};
use std::alloc::Global;

/// A call of a fact list. The number of a fact stands for `(item NUMBER)`.
enum Call {
    /// Adds the fact under the index, unless a fact has the index or an equal fact is there.
    Put(u64, i64),
    Remove(u64),
    Find(i64),
    Get(u64),
    At(usize),
}

/// A call, its answer, and the list after it.
struct Turn {
    call: Call,
    answer: &'static str,
    list: &'static str,
}

const TURNS: [Turn; 16] = [
    Turn {
        call: Call::At(0),
        answer: "none",
        list: "",
    },
    Turn {
        call: Call::Put(7, 1),
        answer: "added",
        list: "<Fact-7>(item 1)",
    },
    Turn {
        call: Call::Put(2, 2),
        answer: "added",
        list: "<Fact-2>(item 2)<Fact-7>(item 1)",
    },
    Turn {
        call: Call::Put(9, 3),
        answer: "added",
        list: "<Fact-2>(item 2)<Fact-7>(item 1)<Fact-9>(item 3)",
    },
    Turn {
        call: Call::Put(4, 4),
        answer: "added",
        list: FOUR,
    },
    Turn {
        call: Call::Put(4, 5),
        answer: "there",
        list: FOUR,
    },
    Turn {
        call: Call::Put(5, 4),
        answer: "there",
        list: FOUR,
    },
    Turn {
        call: Call::Find(3),
        answer: "<Fact-9>",
        list: FOUR,
    },
    Turn {
        call: Call::Get(9),
        answer: "(item 3)",
        list: FOUR,
    },
    Turn {
        call: Call::At(3),
        answer: "<Fact-9>(item 3)",
        list: FOUR,
    },
    Turn {
        call: Call::At(4),
        answer: "none",
        list: FOUR,
    },
    Turn {
        call: Call::Remove(2),
        answer: "",
        list: THREE,
    },
    Turn {
        call: Call::Remove(5),
        answer: "",
        list: THREE,
    },
    Turn {
        call: Call::Find(2),
        answer: "none",
        list: THREE,
    },
    Turn {
        call: Call::Get(2),
        answer: "none",
        list: THREE,
    },
    Turn {
        call: Call::Put(3, 2),
        answer: "added",
        list: "<Fact-3>(item 2)<Fact-4>(item 4)<Fact-7>(item 1)<Fact-9>(item 3)",
    },
];

const FOUR: &str = "<Fact-2>(item 2)<Fact-4>(item 4)<Fact-7>(item 1)<Fact-9>(item 3)";

const THREE: &str = "<Fact-4>(item 4)<Fact-7>(item 1)<Fact-9>(item 3)";

fn item(alloc: Global, n: i64) -> Result<Fact, NoMemory> {
    let mut fields = Vec::new(alloc);
    fields.push(Single::Int(n))?;
    let fields = Multifield::from_vec(fields)?;
    Fact::ordered(alloc, Name::new(alloc, b"item")?, fields)
}

fn put(alloc: Global, list: &mut FactList, ix: u64, n: i64) -> Result<&'static [u8], NoMemory> {
    let fact = item(alloc, n)?;
    if list.get(ix).is_some() || list.find(&fact).is_some() {
        return Ok(b"there");
    }
    list.add(ix, fact)?;
    Ok(b"added")
}

fn index_text(alloc: Global, ix: Option<u64>) -> Result<Vec<u8>, NoMemory> {
    match ix {
        Some(ix) => quoted_text(alloc, &Value::Fact(ix)),
        None => Ok(Vec::from_slice(alloc, b"none")?),
    }
}

fn found_text(alloc: Global, fact: Option<&Fact>) -> Result<Vec<u8>, NoMemory> {
    match fact {
        Some(fact) => fact_text(alloc, fact),
        None => Ok(Vec::from_slice(alloc, b"none")?),
    }
}

fn pair_text(alloc: Global, pair: Option<(u64, &Fact)>) -> Result<Vec<u8>, NoMemory> {
    let Some((ix, fact)) = pair else {
        return Ok(Vec::from_slice(alloc, b"none")?);
    };
    let mut text = index_text(alloc, Some(ix))?;
    text.extend_from_slice(fact_text(alloc, fact)?.as_slice())?;
    Ok(text)
}

fn answer(alloc: Global, list: &mut FactList, call: &Call) -> Result<Vec<u8>, NoMemory> {
    match call {
        Call::Put(ix, n) => Ok(Vec::from_slice(alloc, put(alloc, list, *ix, *n)?)?),
        Call::Remove(ix) => {
            list.remove(*ix);
            Ok(Vec::new(alloc))
        }
        Call::Find(n) => found_index(alloc, list, *n),
        Call::Get(ix) => found_text(alloc, list.get(*ix)),
        Call::At(place) => pair_text(alloc, list.at(*place)),
    }
}

fn found_index(alloc: Global, list: &FactList, n: i64) -> Result<Vec<u8>, NoMemory> {
    index_text(alloc, list.find(&item(alloc, n)?))
}

fn list_text(alloc: Global, list: &FactList) -> Result<Vec<u8>, NoMemory> {
    let mut text = Vec::new(alloc);
    for (ix, fact) in list.iter() {
        text.extend_from_slice(pair_text(alloc, Some((*ix, fact)))?.as_slice())?;
    }
    Ok(text)
}

fn goes_so(alloc: Global, list: &mut FactList, turn: &Turn) -> Result<bool, NoMemory> {
    let answer = answer(alloc, list, &turn.call)?;
    let text = list_text(alloc, list)?;
    Ok(answer.as_slice() == turn.answer.as_bytes() && text.as_slice() == turn.list.as_bytes())
}

/// The first turn that does not go so.
fn wrong_turn(alloc: Global) -> Result<Option<usize>, NoMemory> {
    let mut list = FactList::new(alloc);
    for (i, turn) in TURNS.iter().enumerate() {
        if !goes_so(alloc, &mut list, turn)? {
            return Ok(Some(i));
        }
    }
    Ok(None)
}

#[test]
fn lists_facts(rt: HostRuntime) -> Result<(), NoMemory> {
    let wrong = wrong_turn(rt.alloc())?;
    assert!(rt; wrong.is_none(), "{wrong:?}");
    Ok(())
}
