//! The words that a list may begin with, and those that are refused.
use super::*;

const HEADS: [Row; 1] = [Row {
    steps: &[
        (b"(\"facts\")", CB08),
        (b"(nothing ?x)", CB06),
        (b"(test)", CB06),
        (b"(defrule r =>)", b""),
        (b"(+ 1 2)", b"3\n"),
        (b"(lowcase a)", CB14),
        (b"(facts 1)", CB07),
        (b"(clear (reset))", CB07),
    ],
    status: FAULTY,
}];

#[test]
fn reads_heads(rt: HostRuntime) {
    assert_eq!(rt; first_wrong(rt.alloc(), &HEADS), None);
}

/// The words of CLIPS that this language refuses.
const REFUSED: [Row; 3] = [
    Row {
        steps: &[
            (b"(/)", CB14),
            (b"(**)", CB14),
            (b"(float)", CB14),
            (b"(integer)", CB14),
            (b"(round)", CB14),
            (b"(sqrt)", CB14),
            (b"(random)", CB14),
            (b"(seed)", CB14),
            (b"(gensym)", CB14),
            (b"(gensym*)", CB14),
            (b"(defmodule)", CB14),
            (b"(focus)", CB14),
            (b"(deffunction)", CB14),
            (b"(defgeneric)", CB14),
            (b"(defmethod)", CB14),
            (b"(defclass)", CB14),
            (b"(definstances)", CB14),
            (b"(defmessage-handler)", CB14),
        ],
        status: FAULTY,
    },
    Row {
        steps: &[
            (b"(load)", CB14),
            (b"(load*)", CB14),
            (b"(batch)", CB14),
            (b"(batch*)", CB14),
            (b"(bload)", CB14),
            (b"(bsave)", CB14),
            (b"(save)", CB14),
            (b"(open)", CB14),
            (b"(close)", CB14),
            (b"(read)", CB14),
            (b"(readline)", CB14),
            (b"(format)", CB14),
            (b"(loop-for-count)", CB14),
            (b"(foreach)", CB14),
            (b"(progn)", CB14),
            (b"(progn$)", CB14),
            (b"(switch)", CB14),
            (b"(break)", CB14),
            (b"(return)", CB14),
            (b"(duplicate)", CB14),
            (b"(fact-index)", CB14),
            (b"(fact-slot-value)", CB14),
            (b"(refresh)", CB14),
            (b"(matches)", CB14),
            (b"(set-break)", CB14),
            (b"(remove-break)", CB14),
            (b"(show-breaks)", CB14),
        ],
        status: FAULTY,
    },
    Row {
        steps: &[
            (b"(set-fact-duplication)", CB14),
            (b"(get-strategy)", CB14),
            (b"(undeftemplate)", CB14),
            (b"(undeffacts)", CB14),
            (b"(undefglobal)", CB14),
            (b"(list-defrules)", CB14),
            (b"(list-deftemplates)", CB14),
            (b"(list-deffacts)", CB14),
            (b"(ppdefrule)", CB14),
            (b"(ppfact)", CB14),
            (b"(eval)", CB14),
            (b"(build)", CB14),
            (b"(funcall)", CB14),
            (b"(expand$)", CB14),
            (b"(explode$)", CB14),
            (b"(implode$)", CB14),
            (b"(subseq$)", CB14),
            (b"(delete$)", CB14),
            (b"(insert$)", CB14),
            (b"(replace$)", CB14),
            (b"(str-index)", CB14),
            (b"(str-length)", CB14),
            (b"(str-compare)", CB14),
            (b"(sub-string)", CB14),
            (b"(upcase)", CB14),
            (b"(lowcase)", CB14),
        ],
        status: FAULTY,
    },
];

#[test]
fn refuses_words(rt: HostRuntime) {
    assert_eq!(rt; first_wrong(rt.alloc(), &REFUSED), None);
}

/// Calls with an argument too few or too many.
const NUMBERS: [Row; 2] = [
    // An exact number is wanted.
    Row {
        steps: &[
            (b"(abs)", CB07),
            (b"(abs 1 2)", CB07),
            (b"(length$)", CB07),
            (b"(length$ 1 2)", CB07),
            (b"(first$)", CB07),
            (b"(first$ 1 2)", CB07),
            (b"(rest$)", CB07),
            (b"(rest$ 1 2)", CB07),
            (b"(not)", CB07),
            (b"(not 1 2)", CB07),
            (b"(evenp)", CB07),
            (b"(evenp 1 2)", CB07),
            (b"(oddp)", CB07),
            (b"(oddp 1 2)", CB07),
            (b"(integerp)", CB07),
            (b"(integerp 1 2)", CB07),
            (b"(numberp)", CB07),
            (b"(numberp 1 2)", CB07),
            (b"(symbolp)", CB07),
            (b"(symbolp 1 2)", CB07),
            (b"(stringp)", CB07),
            (b"(stringp 1 2)", CB07),
            (b"(lexemep)", CB07),
            (b"(lexemep 1 2)", CB07),
            (b"(multifieldp)", CB07),
            (b"(multifieldp 1 2)", CB07),
            (b"(mod 1)", CB07),
            (b"(mod 1 2 3)", CB07),
            (b"(nth$ 1)", CB07),
            (b"(nth$ 1 2 3)", CB07),
            (b"(member$ 1)", CB07),
            (b"(member$ 1 2 3)", CB07),
        ],
        status: FAULTY,
    },
    // A least number is wanted.
    Row {
        steps: &[
            (b"(and)", CB07),
            (b"(or)", CB07),
            (b"(min)", CB07),
            (b"(max)", CB07),
            (b"(str-cat)", CB07),
            (b"(sym-cat)", CB07),
            (b"(+ 1)", CB07),
            (b"(- 1)", CB07),
            (b"(* 1)", CB07),
            (b"(div 1)", CB07),
            (b"(= 1)", CB07),
            (b"(<> 1)", CB07),
            (b"(< 1)", CB07),
            (b"(> 1)", CB07),
            (b"(<= 1)", CB07),
            (b"(>= 1)", CB07),
            (b"(eq 1)", CB07),
            (b"(neq 1)", CB07),
        ],
        status: FAULTY,
    },
];

#[test]
fn counts_arguments(rt: HostRuntime) {
    assert_eq!(rt; first_wrong(rt.alloc(), &NUMBERS), None);
}
