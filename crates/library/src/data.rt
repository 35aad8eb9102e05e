//! What the library has.

/// A book.
#[derive(Clone, Copy)]
pub struct Book {
    /// Its own id.
    pub id: &'static str,

    /// The title.
    pub title: &'static str,

    /// The year in which it came out.
    pub year: i32,

    /// The name of its genre.
    pub genre: &'static str,

    /// The place of its author.
    pub author: usize,
}

/// An issue of a magazine.
#[derive(Clone, Copy)]
pub struct Magazine {
    /// Its own id.
    pub id: &'static str,

    /// The title.
    pub title: &'static str,

    /// The year in which it came out.
    pub year: i32,

    /// The number of the issue.
    pub issue: i32,
}

/// An author.
#[derive(Clone, Copy)]
pub struct Author {
    /// Its own id.
    pub id: &'static str,

    /// The name.
    pub name: &'static str,
}

/// What requests are answered from.
#[derive(Drop)]
pub struct Library {
    /// The books.
    pub books: &'static [Book],

    /// The magazines.
    pub magazines: &'static [Magazine],

    /// The authors.
    pub authors: &'static [Author],

    /// The place of the book that was picked last.
    pub picked: Option<usize>,
}

/// What fields are asked of: the root of queries, and the works and authors, each by its place.
#[derive(Clone, Copy, Drop)]
pub enum Node {
    /// The root of queries.
    Query,

    /// The book at this place.
    Book(usize),

    /// The magazine at this place.
    Magazine(usize),

    /// The author at this place.
    Author(usize),
}

/// The library as it is at first.
pub const LIBRARY: Library = Library {
    books: BOOKS,
    magazines: MAGAZINES,
    authors: AUTHORS,
    picked: None,
};

const AUTHORS: &[Author] = &[
    Author {
        id: "a1",
        name: "Jane Austen",
    },
    Author {
        id: "a2",
        name: "Virginia Woolf",
    },
];

const BOOKS: &[Book] = &[
    Book {
        id: "1",
        title: "Emma",
        year: 1815,
        genre: "NOVEL",
        author: 0,
    },
    Book {
        id: "2",
        title: "Orlando",
        year: 1928,
        genre: "NOVEL",
        author: 1,
    },
    Book {
        id: "3",
        title: "A Room of One's Own",
        year: 1929,
        genre: "ESSAY",
        author: 1,
    },
    Book {
        id: "4",
        title: "The Waves",
        year: 1931,
        genre: "NOVEL",
        author: 1,
    },
];

const MAGAZINES: &[Magazine] = &[Magazine {
    id: "m1",
    title: "The Criterion",
    year: 1922,
    issue: 1,
}];
