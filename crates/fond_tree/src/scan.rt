//! A scanner: it goes over a text from left to right and yields its tokens with their places.

ghost use Rattle.std.specs.Prelude.{◌≡◌, ◌≤◌, ◌∷◌, length};
ghost use Rattle.std.specs.List.{prefix_len};
ghost use Rattle.fond_text.specs.Bytes.{is_leaf_byte};
ghost use Rattle.fond_text.specs.Places.{place_after};
ghost use Rattle.fond_text.specs.declared.code.TheConstants.{LONGEST_TEXT};
ghost use Rattle.fond_tree.specs.Left.{next_place, goes_on, Fits, EndsGap, BeginsLeaf, FindsEnd, TakesClosing};
ghost use Rattle.fond_tree.specs.Marks.{marks};

use fond_text::bytes::is_blank;
use fond_text::place::Place;

/// The rest of a text, and the place where it begins.
#[derive(Drop)]
pub struct Scanner<'a> {
    rest: &'a [u8],
    place: Place,
    ghost fits: { Fits place rest.now },
}

/// A token with its place, a leaf with its bytes, or the end of the text. A byte that is allowed in comments only is
/// stray if it occurs outside them.
#[derive(Clone, Copy)]
pub enum Piece<'a> {
    Open(Place),
    Close(Place),
    Leaf(Place, &'a [u8]),
    Stray(Place),
    End(Place),
}

/// Whether a leaf may contain the byte: one of the bytes 33 to 126 that is no parenthesis and no semicolon.
fn is_leaf_byte(b: u8) -> bool
    ensures { result ≡ is_leaf_byte b }
{
    b.is_ascii_graphic() && b != b'(' && b != b')' && b != b';'
}

/// Whether the byte after this one is in a comment.
fn goes_on(in_comment: bool, b: u8) -> bool
    ensures { result ≡ goes_on in_comment b }
{
    if in_comment { b != b'\n' } else { b == b';' }
}

/// The length of the longest run of leaf bytes with which the text begins.
fn leaf_len(b: &[u8]) -> usize
    ensures { result ≡ prefix_len is_leaf_byte b.now }
{
    b.iter().take_while(|x| is_leaf_byte(**x)).count()
}

impl<'a> Scanner<'a> {
    ghost use Rattle.fond_tree.specs.Scanning.{marks_left, end_left, Yields};

    /// A scanner before all of the text.
    pub fn new(text: &'a [u8]) -> Scanner<'a>
        requires { length text.now ≤ LONGEST_TEXT }
        ensures tokens { marks_left result ≡ marks text.now }
        ensures end { end_left result ≡ place_after text.now }
    {
        Scanner {
            rest: text,
            place: Place { line: 1, column: 1 },
        }
    }

    /// Takes the next byte, after which these are left.
    fn step(&mut self, b: u8, rest: &'a [u8])
        requires { self.old.rest.now ≡ b ∷ rest.now }
        ensures place { self.new.place ≡ next_place b self.old.place }
        ensures rest { self.new.rest.now ≡ rest.now }
    {
        let place = self.place;
        self.place = if b == b'\n' {
            Place {
                line: place.line + 1,
                column: 1,
            }
        } else {
            Place {
                line: place.line,
                column: place.column + 1,
            }
        };
        self.rest = rest;
    }

    /// Skips blanks and comments.
    fn skip(&mut self)
        ensures same { marks_left self.new ≡ marks_left self.old }
        ensures end { end_left self.new ≡ end_left self.old }
        ensures ends { EndsGap self.new.rest.now }
    {
        let mut in_comment = false;
        while let Some((b, rest)) = self.rest.split_first() {
            in_comment = goes_on(in_comment, *b);
            if !in_comment && !is_blank(*b) {
                return;
            }
            self.step(*b, rest);
        }
    }

    /// The place of the end, if no token is left.
    pub fn end(&mut self) -> Option<Place>
        ensures found { FindsEnd result (marks_left self.old) (end_left self.old) }
        ensures same { marks_left self.new ≡ marks_left self.old }
        ensures end { end_left self.new ≡ end_left self.old }
    {
        self.skip();
        if self.rest.is_empty() {
            Some(self.place)
        } else {
            None
        }
    }

    /// Takes the next token if it is a closing parenthesis, and says whether it was.
    pub fn closes(&mut self) -> bool
        ensures taken { TakesClosing result (marks_left self.old) (marks_left self.new) }
        ensures end { end_left self.new ≡ end_left self.old }
    {
        self.skip();
        let Some((b, rest)) = self.rest.split_first() else {
            return false;
        };
        if *b != b')' {
            return false;
        }
        self.step(*b, rest);
        true
    }

    /// Takes the next token, or finds the end.
    pub fn next(&mut self) -> Piece<'a>
        ensures yields { Yields result (marks_left self.old) (end_left self.old) (marks_left self.new) }
        ensures end { end_left self.new ≡ end_left self.old }
    {
        self.skip();
        let place = self.place;
        let Some((b, rest)) = self.rest.split_first() else {
            return Piece::End(place);
        };
        if is_leaf_byte(*b) {
            return self.leaf();
        }
        self.step(*b, rest);
        match *b {
            b'(' => Piece::Open(place),
            b')' => Piece::Close(place),
            _ => Piece::Stray(place),
        }
    }

    /// The leaf that begins here.
    fn leaf(&mut self) -> Piece<'a>
        requires { BeginsLeaf self.old.rest.now }
        ensures yields { Yields result (marks_left self.old) (end_left self.old) (marks_left self.new) }
        ensures end { end_left self.new ≡ end_left self.old }
    {
        let place = self.place;
        let (bytes, rest) = self.rest.split_at(leaf_len(self.rest));
        self.place.column += bytes.len() as u32;
        self.rest = rest;
        Piece::Leaf(place, bytes)
    }
}
