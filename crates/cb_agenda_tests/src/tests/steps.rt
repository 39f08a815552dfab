//! Steps of an agenda: a call, its answer, and the list after it.
use cb_agenda::Strategy;

/// A call. A number stands for a match.
pub enum Call {
    /// These are gone, those come, and the saliences of those.
    Change(&'static [u64], &'static [u64], &'static [i64]),
    Has(u64),
    Pop,
    Set(Strategy),
    DropAll,
    Forget(u64),
}

/// A call, its answer, and the list after it, each activation as `MATCH:SALIENCE`.
pub struct Step {
    pub call: Call,
    pub answer: &'static str,
    pub list: &'static str,
}

/// From nothing.
pub const STEPS: [Step; 22] = [
    Step {
        call: Call::Pop,
        answer: "none",
        list: "",
    },
    Step {
        call: Call::Change(&[], &[1, 2, 3, 4], &[0, 5, 0, 5]),
        answer: "done",
        list: "4:5 2:5 3:0 1:0 ",
    },
    Step {
        call: Call::Has(3),
        answer: "yes",
        list: "4:5 2:5 3:0 1:0 ",
    },
    Step {
        call: Call::Has(9),
        answer: "no",
        list: "4:5 2:5 3:0 1:0 ",
    },
    Step {
        call: Call::Forget(0),
        answer: "",
        list: "4:5 2:5 3:0 1:0 ",
    },
    Step {
        call: Call::Set(Strategy::Breadth),
        answer: "depth",
        list: "2:5 4:5 1:0 3:0 ",
    },
    Step {
        call: Call::Pop,
        answer: "2",
        list: "4:5 1:0 3:0 ",
    },
    Step {
        call: Call::Change(&[3], &[5, 6], &[0, -1]),
        answer: "done",
        list: "4:5 1:0 5:0 6:-1 ",
    },
    Step {
        call: Call::Pop,
        answer: "4",
        list: "1:0 5:0 6:-1 ",
    },
    Step {
        call: Call::Set(Strategy::Depth),
        answer: "breadth",
        list: "5:0 1:0 6:-1 ",
    },
    Step {
        call: Call::Change(&[7], &[1], &[0]),
        answer: "done",
        list: "1:0 5:0 6:-1 ",
    },
    Step {
        call: Call::Change(&[6], &[6, 8], &[]),
        answer: "done",
        list: "8:0 6:0 1:0 5:0 ",
    },
    Step {
        call: Call::Pop,
        answer: "8",
        list: "6:0 1:0 5:0 ",
    },
    Step {
        call: Call::Change(&[1, 6], &[], &[]),
        answer: "done",
        list: "5:0 ",
    },
    Step {
        call: Call::Pop,
        answer: "5",
        list: "",
    },
    Step {
        call: Call::Has(5),
        answer: "no",
        list: "",
    },
    Step {
        call: Call::Forget(0),
        answer: "",
        list: "",
    },
    Step {
        call: Call::Change(&[], &[2, 1], &[-10000, 10000]),
        answer: "done",
        list: "1:10000 2:-10000 ",
    },
    Step {
        call: Call::DropAll,
        answer: "",
        list: "",
    },
    Step {
        call: Call::Pop,
        answer: "none",
        list: "",
    },
    Step {
        call: Call::Set(Strategy::Breadth),
        answer: "depth",
        list: "",
    },
    Step {
        call: Call::Change(&[], &MANY, &[0, 3, 0, 3, -3, 3]),
        answer: "done",
        list: "2:3 4:3 6:3 1:0 3:0 7:0 8:0 9:0 10:0 11:0 12:0 13:0 14:0 15:0 16:0 17:0 18:0 19:0 20:0 21:0 22:0 23:0 24:0 5:-3 ",
    },
];

/// Changes by which other matches go than are due, as many of them, then all but one, and then all.
pub const GONE: [Step; 11] = [
    Step {
        call: Call::Change(&[], &[1, 2, 3], &[0, 5, 0]),
        answer: "done",
        list: "2:5 3:0 1:0 ",
    },
    Step {
        call: Call::Change(&[4, 5, 6], &[], &[]),
        answer: "done",
        list: "2:5 3:0 1:0 ",
    },
    Step {
        call: Call::Change(&[1, 2, 4], &[], &[]),
        answer: "done",
        list: "3:0 ",
    },
    Step {
        call: Call::Change(&[], &[1, 2], &[4, 0]),
        answer: "done",
        list: "1:4 2:0 3:0 ",
    },
    Step {
        call: Call::Change(&[1, 3], &[], &[]),
        answer: "done",
        list: "2:0 ",
    },
    Step {
        call: Call::Change(&[], &[1, 3], &[]),
        answer: "done",
        list: "3:0 1:0 2:0 ",
    },
    Step {
        call: Call::Change(&[1, 2, 3], &[2, 4], &[1, 0]),
        answer: "done",
        list: "2:1 4:0 ",
    },
    Step {
        call: Call::Has(1),
        answer: "no",
        list: "2:1 4:0 ",
    },
    Step {
        call: Call::Change(&[2, 4], &[], &[]),
        answer: "done",
        list: "",
    },
    Step {
        call: Call::Pop,
        answer: "none",
        list: "",
    },
    Step {
        call: Call::Change(&[], &[4], &[2]),
        answer: "done",
        list: "4:2 ",
    },
];

/// More than a sort puts in order without memory.
const MANY: [u64; 24] = [
    1, 2, 3, 4, 5, 6, 7, 8, 9, 10, 11, 12, 13, 14, 15, 16, 17, 18, 19, 20, 21, 22, 23, 24,
];

/// Two stamps are left.
pub const LAST_STAMPS: [Step; 6] = [
    Step {
        call: Call::Change(&[], &[1, 2, 3], &[0, 0, 0]),
        answer: "exhausted",
        list: "",
    },
    Step {
        call: Call::Change(&[], &[1, 2], &[0, 0]),
        answer: "done",
        list: "2:0 1:0 ",
    },
    Step {
        call: Call::Change(&[1], &[3], &[0]),
        answer: "exhausted",
        list: "2:0 1:0 ",
    },
    Step {
        call: Call::Change(&[1], &[], &[]),
        answer: "done",
        list: "2:0 ",
    },
    Step {
        call: Call::DropAll,
        answer: "",
        list: "",
    },
    Step {
        call: Call::Change(&[], &[4], &[0]),
        answer: "exhausted",
        list: "",
    },
];

/// Matches go whose activations stand amid others of their salience, and others come.
pub const AMID: [Step; 16] = [
    Step {
        call: Call::Change(&[], &[1, 2, 3, 4, 5, 6, 7], &[0, 0, 0, 0, 0, 0, 2]),
        answer: "done",
        list: "7:2 6:0 5:0 4:0 3:0 2:0 1:0 ",
    },
    Step {
        call: Call::Change(&[3, 5], &[], &[]),
        answer: "done",
        list: "7:2 6:0 4:0 2:0 1:0 ",
    },
    Step {
        call: Call::Pop,
        answer: "7",
        list: "6:0 4:0 2:0 1:0 ",
    },
    Step {
        call: Call::Pop,
        answer: "6",
        list: "4:0 2:0 1:0 ",
    },
    Step {
        call: Call::Pop,
        answer: "4",
        list: "2:0 1:0 ",
    },
    Step {
        call: Call::Change(&[], &[5, 4, 3, 6], &[]),
        answer: "done",
        list: "6:0 3:0 4:0 5:0 2:0 1:0 ",
    },
    Step {
        call: Call::Set(Strategy::Breadth),
        answer: "depth",
        list: "1:0 2:0 5:0 4:0 3:0 6:0 ",
    },
    Step {
        call: Call::Change(&[2, 4], &[], &[]),
        answer: "done",
        list: "1:0 5:0 3:0 6:0 ",
    },
    Step {
        call: Call::Pop,
        answer: "1",
        list: "5:0 3:0 6:0 ",
    },
    Step {
        call: Call::Pop,
        answer: "5",
        list: "3:0 6:0 ",
    },
    Step {
        call: Call::Change(&[], &[3], &[0]),
        answer: "done",
        list: "6:0 3:0 ",
    },
    Step {
        call: Call::Change(&[6], &[6, 7], &[1, 0]),
        answer: "done",
        list: "6:1 3:0 7:0 ",
    },
    Step {
        call: Call::Set(Strategy::Depth),
        answer: "breadth",
        list: "6:1 7:0 3:0 ",
    },
    Step {
        call: Call::Change(&[3, 7, 6], &[], &[]),
        answer: "done",
        list: "",
    },
    Step {
        call: Call::Has(3),
        answer: "no",
        list: "",
    },
    Step {
        call: Call::Pop,
        answer: "none",
        list: "",
    },
];
