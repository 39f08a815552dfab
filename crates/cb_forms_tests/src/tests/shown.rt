//! Items as the rows write them: a blank before each word, an atom by its class and its name, a list between
//! parentheses, a fault by its number.
use cb_forms::{Cut, Fault, Form, Item, NoMemory, Token};
use std::alloc::Global;

/// What is shown so far, with the names of atoms or without.
#[derive(Drop)]
pub(crate) struct Shown {
    alloc: Global,
    with_names: bool,
    bytes: Vec<u8>,
}

/// The class of an atom.
fn class(token: &Token) -> &'static [u8] {
    match token {
        Token::Symbol(_) => b" s:",
        Token::Str(_) => b" t:",
        Token::Int(_) => b" i:",
        Token::Var(_) => b" v:",
        Token::MultiVar(_) => b" m:",
        Token::Any => b" ?",
        Token::MultiAny => b" $?",
        Token::Global(_) => b" g:",
        Token::And => b" &",
        Token::Or => b" |",
        Token::Not => b" ~",
    }
}

impl Shown {
    pub(crate) fn new(alloc: Global) -> Shown {
        Shown {
            alloc,
            with_names: true,
            bytes: Vec::new(alloc),
        }
    }

    pub(crate) fn without_names(alloc: Global) -> Shown {
        Shown {
            alloc,
            with_names: false,
            bytes: Vec::new(alloc),
        }
    }

    pub(crate) fn bytes(&self) -> &[u8] {
        self.bytes.as_slice()
    }

    pub(crate) fn add(&mut self, bytes: &[u8]) -> Result<(), NoMemory> {
        self.bytes.extend_from_slice(bytes)?;
        Ok(())
    }

    fn add_number(&mut self, number: i64) -> Result<(), NoMemory> {
        let digits = format!(in self.alloc; "{number}")?;
        self.add(digits.as_bytes())
    }

    fn add_name(&mut self, token: &Token) -> Result<(), NoMemory> {
        match token {
            Token::Symbol(name)
            | Token::Str(name)
            | Token::Var(name)
            | Token::MultiVar(name)
            | Token::Global(name) => self.add(name.as_slice()),
            Token::Int(number) => self.add_number(*number),
            Token::Any | Token::MultiAny | Token::And | Token::Or | Token::Not => Ok(()),
        }
    }

    pub(crate) fn add_form(&mut self, form: &Form) -> Result<(), NoMemory> {
        match form {
            Form::Atom(token) => {
                self.add(class(token))?;
                if self.with_names {
                    self.add_name(token)?;
                }
            }
            Form::List(forms) => {
                self.add(b" (")?;
                for form in forms {
                    self.add_form(form)?;
                }
                self.add(b" )")?;
            }
        }
        Ok(())
    }

    fn add_fault(&mut self, fault: Fault) -> Result<(), NoMemory> {
        let number = fault.number();
        self.add(&[b' ', b'C', b'B', b'0' + number / 10, b'0' + number % 10])
    }

    pub(crate) fn add_item(&mut self, item: &Item) -> Result<(), NoMemory> {
        match item {
            Item::Form(form) => self.add_form(form),
            Item::Bad(fault) => self.add_fault(*fault),
        }
    }

    pub(crate) fn add_some(&mut self, item: Option<&Item>) -> Result<(), NoMemory> {
        match item {
            Some(item) => self.add_item(item),
            None => Ok(()),
        }
    }

    fn add_two(&mut self, first: &Item, second: &Item) -> Result<(), NoMemory> {
        self.add_item(first)?;
        self.add_item(second)
    }

    /// The items that a byte gave.
    pub(crate) fn add_cut(&mut self, cut: &Cut) -> Result<(), NoMemory> {
        match cut {
            Cut::More | Cut::TooLong => Ok(()),
            Cut::Item(item) => self.add_item(item),
            Cut::TwoItems(first, second) => self.add_two(first, second),
        }
    }
}
