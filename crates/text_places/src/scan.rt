//! Where in a TOML text a key stands: the text is walked over once more, without a word on what the keys mean.
ghost use Rattle.std.specs.Prelude.{◌≡◌, true, IfOk, IfSome};
ghost use Rattle.text_places.specs.Places.{behind_brackets, begins_with_key, IsPlaceOf};

use std::alloc::{AllocError, Global};
use toml_parser::text::{byte_at, first, skip, skip_blank, skip_ws};
use toml_parser::{ErrorKind, Key, ParseError, dotted_key, quoted, starts_string, unquoted};

/// A step from a table or an array to what stands in it.
#[derive(Clone, Copy, Debug)]
pub enum Step<'k> {
    Key(&'k str),
    /// From 0 on.
    Element(usize),
}

/// How many of the steps lead to a place, where the place is on their way.
type Led = Option<usize>;

/// A table or an array that isn't closed yet.
#[derive(Clone, Copy, Debug)]
enum Open {
    Table(Led),
    Array(Led, usize),
}

/// A walk over a text that is TOML.
#[derive(Drop)]
struct Walk<'t, 'k> {
    text: &'t str,
    rest: &'t str,
    steps: &'k [Step<'k>],
    /// How far the table leads whose header was last.
    header: Led,
    /// How many headers there were of the elements of the array that the steps begin with.
    elements: usize,
    open: Vec<Open>,
    found: Option<usize>,
    is_twice: bool,
}

/// Where the key, or the element, stands that the steps lead to, in bytes from the text's beginning; nothing where that is no one place.
pub fn place_of(alloc: Global, text: &str, steps: &[Step<'_>]) -> Result<Option<usize>, AllocError>
    ensures { IfOk result (λ found. IfSome found (IsPlaceOf text.now steps.now)) }
{
    let Some(offset) = led_to(alloc, text, steps)? else {
        return Ok(None);
    };
    if is_place(alloc, text, steps, offset)? {
        Ok(Some(offset))
    } else {
        Ok(None)
    }
}

/// Whether what the last step names stands at a place.
fn is_place(
    alloc: Global,
    text: &str,
    steps: &[Step<'_>],
    offset: usize,
) -> Result<bool, AllocError>
    ensures { IfOk result (λ stands. stands ≡ true → IsPlaceOf text.now steps.now offset) }
{
    if !text.is_char_boundary(offset) {
        return Ok(false);
    }
    match steps.last() {
        Some(Step::Key(name)) => {
            begins_with_key(alloc, behind_brackets(text.split_at(offset).1), *name)
        }
        Some(Step::Element(_)) => Ok(true),
        None => Ok(false),
    }
}

/// Whether a key stands at a text's front whose last part has this name.
fn begins_with_key(alloc: Global, text: &str, name: &str) -> Result<bool, AllocError>
    ensures { IfOk result (λ stands. stands ≡ begins_with_key text.now name.now) }
{
    match dotted_key(alloc, text) {
        Ok((key, _)) => Ok(key.last.as_str() == name),
        Err(ParseError::OutOfMemory) => Err(AllocError),
        Err(ParseError::At(..)) => Ok(false),
    }
}

/// Behind the bracket, or the two, that begin a table's header.
fn behind_brackets(text: &str) -> &str
    ensures { result.now ≡ behind_brackets text.now }
{
    if first(text) != b'[' {
        text
    } else if byte_at(text, 1) == b'[' {
        skip_ws(skip(text, 2))
    } else {
        skip_ws(skip(text, 1))
    }
}

/// Where the walk finds what the steps lead to, if at one place.
fn led_to(alloc: Global, text: &str, steps: &[Step<'_>]) -> Result<Option<usize>, AllocError> {
    let mut walk = Walk {
        text,
        rest: text.strip_prefix('\u{feff}').unwrap_or(text),
        steps,
        header: Some(0),
        elements: 0,
        open: Vec::new(alloc),
        found: None,
        is_twice: false,
    };
    for _ in 0..text.len() {
        match walk.turn(alloc) {
            Ok(()) => {}
            Err(ParseError::OutOfMemory) => return Err(AllocError),
            Err(ParseError::At(..)) => return Ok(None),
        }
    }
    Ok(if walk.is_twice { None } else { walk.found })
}

impl<'t, 'k> Walk<'t, 'k> {
    /// Goes on by a header, a key with what is simple or begins behind it, an element, or a mark. At the end it stays there.
    fn turn(&mut self, alloc: Global) -> Result<(), ParseError> {
        self.rest = skip_blank(self.rest, true);
        match (self.open.last().copied(), first(self.rest)) {
            (None, 0) => Ok(()),
            (None, b'[') => self.headed(alloc),
            (None, _) => self.pair(alloc, self.header),
            (Some(_), b'}' | b']') => {
                self.open.pop();
                self.pass()
            }
            (Some(_), b',') => {
                self.count();
                self.pass()
            }
            (Some(Open::Table(led)), _) => self.pair(alloc, led),
            (Some(Open::Array(led, index)), _) => {
                let led = element(self.steps, led, index);
                self.note(led, self.rest);
                self.value(alloc, led)
            }
        }
    }

    /// Passes a mark.
    fn pass(&mut self) -> Result<(), ParseError> {
        self.rest = behind(self.rest)?;
        Ok(())
    }

    /// Goes on to the next element of the innermost array, where one is open.
    fn count(&mut self) {
        if let Some(Open::Array(_, index)) = self.open.last_mut() {
            *index = index.saturating_add(1);
        }
    }

    fn headed(&mut self, alloc: Global) -> Result<(), ParseError> {
        let header = self.rest;
        self.pass()?;
        let is_element = first(self.rest) == b'[';
        if is_element {
            self.pass()?;
        }
        let (key, rest) = dotted_key(alloc, skip_ws(self.rest))?;
        self.rest = rest;
        self.header = self.led_by(&key, is_element);
        self.note(self.header, header);
        self.pass()?;
        if is_element { self.pass() } else { Ok(()) }
    }

    /// How far a header leads. An array of tables is entered at its last element.
    fn led_by(&mut self, key: &Key, is_element: bool) -> Led {
        let mut led = Some(0);
        for part in key.path.as_slice() {
            led = self.entered(keyed(self.steps, led, part.as_str()));
        }
        led = keyed(self.steps, led, key.last.as_str());
        if is_element && led == Some(1) {
            self.elements = self.elements.saturating_add(1);
        }
        self.entered(led)
    }

    fn entered(&self, led: Led) -> Led {
        match self.steps.get(led?) {
            Some(Step::Element(_)) if led == Some(1) => {
                element(self.steps, led, self.elements.checked_sub(1)?)
            }
            _ => led,
        }
    }

    fn pair(&mut self, alloc: Global, led: Led) -> Result<(), ParseError> {
        let (key, rest) = dotted_key(alloc, self.rest)?;
        let mut led = led;
        for part in key.path.as_slice() {
            led = keyed(self.steps, led, part.as_str());
        }
        led = keyed(self.steps, led, key.last.as_str());
        self.note(led, self.rest);
        self.rest = skip_ws(behind(rest)?);
        self.value(alloc, led)
    }

    /// Passes a value that is simple, or the mark that begins one.
    fn value(&mut self, alloc: Global, led: Led) -> Result<(), ParseError> {
        match first(self.rest) {
            b'[' => self.begin(Open::Array(led, 0)),
            b'{' => self.begin(Open::Table(led)),
            _ if starts_string(self.rest) => {
                self.rest = quoted(alloc, self.rest)?.1;
                Ok(())
            }
            _ => {
                self.rest = unquoted(alloc, self.rest)?.1;
                Ok(())
            }
        }
    }

    fn begin(&mut self, open: Open) -> Result<(), ParseError> {
        self.open.push(open)?;
        self.pass()
    }

    /// Keeps a place to which all steps lead.
    fn note(&mut self, led: Led, at: &str) {
        if led == Some(self.steps.len()) {
            self.is_twice = self.found.is_some();
            self.found = self.text.len().checked_sub(at.len());
        }
    }
}

/// How far a key leads in a table to which so many steps lead.
fn keyed(steps: &[Step<'_>], led: Led, key: &str) -> Led {
    match steps.get(led?) {
        Some(Step::Key(wanted)) if *wanted == key => led?.checked_add(1),
        _ => None,
    }
}

/// How far an element leads in an array to which so many steps lead.
fn element(steps: &[Step<'_>], led: Led, index: usize) -> Led {
    match steps.get(led?) {
        Some(Step::Element(wanted)) if *wanted == index => led?.checked_add(1),
        _ => None,
    }
}

/// Behind a byte of ASCII.
fn behind(text: &str) -> Result<&str, ParseError> {
    let byte = first(text);
    if 0 < byte && byte < 128 {
        Ok(skip(text, 1))
    } else {
        Err(ParseError::at(ErrorKind::Content, text))
    }
}
