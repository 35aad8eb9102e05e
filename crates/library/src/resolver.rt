//! The resolver of the library.

ghost use Rattle.std.specs.Option.{option_map};
ghost use Rattle.std.specs.Prelude.{◌≡◌};
ghost use Rattle.graphql_resolvers.specs.Answers as answers;
ghost use Rattle.graphql_resolvers.specs.Answers.{Answers};
ghost use Rattle.graphql_resolvers.specs.Given.{given_to};
ghost use Rattle.library.specs.Library as spec;

use crate::data::{Author, Book, Library, Magazine, Node};
use graphql_resolvers::{
    Answer, Given, MutationResolver, Resolver, Text, each, fails_with, first, int, is_among, node,
    node_or_null, nodes, nodes_where, null, skip, text,
};
use std::alloc::Global;

/// Answers from the library.
#[derive(Drop)]
pub struct Librarian;

/// The place of the book of this id.
fn book_place(books: &[Book], id: &str) -> Option<usize>
    ensures { result ≡ spec.book_place books.now id.now }
{
    books.iter().position(|book| book.id == id)
}

/// The place of the first book of this title.
fn title_place(books: &[Book], title: &str) -> Option<usize>
    ensures { result ≡ spec.title_place books.now title.now }
{
    books.iter().position(|book| book.title == title)
}

/// The place of the magazine of this id.
fn magazine_place(magazines: &[Magazine], id: &str) -> Option<usize>
    ensures { result ≡ spec.magazine_place magazines.now id.now }
{
    magazines.iter().position(|magazine| magazine.id == id)
}

/// The place of the author of this name.
fn author_place(authors: &[Author], name: &str) -> Option<usize>
    ensures { result ≡ spec.author_place authors.now name.now }
{
    authors.iter().position(|author| author.name == name)
}

/// The book of this id.
fn book_of(library: &Library, id: &str) -> Option<Node>
    ensures { result ≡ spec.book_of library.now id.now }
{
    match book_place(library.books, id) {
        Some(place) => Some(Node::Book(place)),
        None => None,
    }
}

/// The first book of this title.
fn book_titled(library: &Library, title: &str) -> Option<Node>
    ensures { result ≡ spec.book_titled library.now title.now }
{
    match title_place(library.books, title) {
        Some(place) => Some(Node::Book(place)),
        None => None,
    }
}

/// The magazine of this id.
fn magazine_of(library: &Library, id: &str) -> Option<Node>
    ensures { result ≡ spec.magazine_of library.now id.now }
{
    match magazine_place(library.magazines, id) {
        Some(place) => Some(Node::Magazine(place)),
        None => None,
    }
}

/// The book or the magazine of this id.
fn work_of(library: &Library, id: &str) -> Option<Node>
    ensures { result ≡ spec.work_of library.now id.now }
{
    match book_of(library, id) {
        Some(book) => Some(book),
        None => magazine_of(library, id),
    }
}

/// The book of this id, or where none is given, of the title that is given.
fn of_id_or_title(library: &Library, id: Option<Text>, by: &Given<'_>) -> Answer<Node>
    ensures { Answers (spec.of_id_or_title library.now id (given_to by.now)) result }
{
    match id {
        Some(id) => node_or_null(book_of(library, id.as_str())),
        None => node_or_null(book_titled(library, by.word("title")?)),
    }
}

/// The book of an id or a title, of which exactly one is given.
fn book(library: &Library, by: &Given<'_>) -> Answer<Node>
    ensures { Answers (spec.book library.now (given_to by.now)) result }
{
    of_id_or_title(library, by.id_or_null("id")?, by)
}

/// Whether a genre is asked for.
fn has_genre(genres: &Option<Vec<&str>>, genre: &str) -> bool
    ensures { result ≡ spec.has_genre (spec.genres_told genres.now) genre.now }
{
    match genres {
        Some(genres) => is_among(genre, genres.as_slice()),
        None => true,
    }
}

/// Which books are asked for.
#[derive(Drop)]
struct Filter<'a> {
    /// The names of their genres; each where none is given.
    genres: Option<Vec<&'a str>>,

    /// The first year.
    from: i32,

    /// The last year.
    to: i32,
}

/// The books that a filter asks for.
fn books_of(alloc: Global, library: &Library, filter: &Filter<'_>) -> Answer<Node>
    ensures { Answers (spec.books_of library.now (spec.genres_told filter.now.genres)
        filter.now.from filter.now.to)
        result }
{
    nodes_where(
        alloc,
        library.books,
        |place: usize, book: &Book|
            ensures { result
                ≡ spec.book_in (spec.genres_told filter.entry.now.genres) filter.entry.now.from
                filter.entry.now.to place book.now }
        {
            if has_genre(&filter.genres, book.genre)
                && filter.from <= book.year
                && book.year <= filter.to
            {
                Some(Node::Book(place))
            } else {
                None
            }
        },
    )
}

/// The books of these genres, from one year to another; what is not given leaves none out.
fn from_to(
    alloc: Global,
    library: &Library,
    genres: Option<Vec<&str>>,
    from: Option<i32>,
    to: Option<i32>,
) -> Answer<Node>
    ensures { Answers (spec.from_to library.now (spec.genres_told genres.entry) from to) result }
{
    let filter = Filter {
        genres,
        from: from.unwrap_or(0),
        to: to.unwrap_or(9999),
    };
    books_of(alloc, library, &filter)
}

/// The books of these genres in the years that are given, if any are.
fn in_years(
    alloc: Global,
    library: &Library,
    genres: Option<Vec<&str>>,
    years: Option<Given<'_>>,
) -> Answer<Node>
    ensures { Answers (spec.in_years library.now (spec.genres_told genres.entry)
        (option_map given_to years.entry))
        result }
{
    match years {
        Some(years) => from_to(
            alloc,
            library,
            genres,
            years.int_or_null("from")?,
            years.int_or_null("to")?,
        ),
        None => from_to(alloc, library, genres, None, None),
    }
}

/// The books that a filter asks for, if one is given.
fn filtered(alloc: Global, library: &Library, filter: Option<Given<'_>>) -> Answer<Node>
    ensures { Answers (spec.filtered library.now (option_map given_to filter.entry)) result }
{
    match filter {
        Some(filter) => in_years(
            alloc,
            library,
            filter.words_or_null("genres")?,
            filter.part_or_null("years")?,
        ),
        None => from_to(alloc, library, None, None, None),
    }
}

/// The books that are asked for, as far as `first` and `skip` say.
fn books(
    alloc: Global,
    library: &Library,
    filter: Option<Given<'_>>,
    given: &Given<'_>,
) -> Answer<Node>
    ensures { Answers
        (spec.books library.now (option_map given_to filter.entry) (given_to given.now)) result }
{
    first(
        skip(
            filtered(alloc, library, filter),
            given.count_or_null("skip"),
        ),
        given.count_or_null("first"),
    )
}

/// The works of these ids, each `null` where there is none.
fn works(alloc: Global, library: &Library, ids: &[Text]) -> Answer<Node>
    ensures { Answers (answers.each (spec.work library.now) ids.now) result }
{
    each(
        alloc,
        ids,
        |id: &Text|
            ensures { Answers (spec.work library.entry.now id.now) result }
        { node_or_null(work_of(library, id.as_str())) },
    )
}

/// The books of this title.
fn titled(alloc: Global, library: &Library, title: &str) -> Answer<Node>
    ensures { Answers (spec.titled library.now title.now) result }
{
    nodes_where(
        alloc,
        library.books,
        |place: usize, book: &Book|
            ensures { result ≡ spec.has_title title.entry.now place book.now }
        {
            if book.title == title {
                Some(Node::Book(place))
            } else {
                None
            }
        },
    )
}

/// What has these words for a title or a name.
fn find(alloc: Global, library: &Library, words: &str) -> Answer<Node>
    ensures { Answers (spec.find library.now words.now) result }
{
    match author_place(library.authors, words) {
        Some(place) => nodes(alloc, &[Node::Author(place)]),
        None => titled(alloc, library, words),
    }
}

/// The book that was picked last.
fn picked(library: &Library) -> Answer<Node>
    ensures { Answers (spec.picked library.now) result }
{
    match library.picked {
        Some(place) => node(Node::Book(place)),
        None => null(),
    }
}

fn of_query(alloc: Global, library: &Library, field: &str, given: &Given<'_>) -> Answer<Node>
    ensures { Answers (spec.of_query library.now field.now (given_to given.now)) result }
{
    match field {
        "book" => book(library, &given.part("by")?),
        "picked" => picked(library),
        "books" => books(alloc, library, given.part_or_null("filter")?, given),
        "works" => works(alloc, library, given.ids("ids")?.as_slice()),
        "find" => find(alloc, library, given.word("words")?),
        _ => null(),
    }
}

fn of_book(alloc: Global, book: &Book, field: &str) -> Answer<Node>
    ensures { Answers (spec.of_book book.now field.now) result }
{
    match field {
        "id" => text(alloc, book.id),
        "title" => text(alloc, book.title),
        "year" => int(book.year),
        "genre" => text(alloc, book.genre),
        "author" => node(Node::Author(book.author)),
        _ => null(),
    }
}

fn of_magazine(alloc: Global, magazine: &Magazine, field: &str) -> Answer<Node>
    ensures { Answers (spec.of_magazine magazine.now field.now) result }
{
    match field {
        "id" => text(alloc, magazine.id),
        "title" => text(alloc, magazine.title),
        "year" => int(magazine.year),
        "issue" => int(magazine.issue),
        _ => null(),
    }
}

/// The books of the author at a place.
fn books_by(alloc: Global, library: &Library, author: usize) -> Answer<Node>
    ensures { Answers (spec.books_by library.now author) result }
{
    nodes_where(
        alloc,
        library.books,
        |place: usize, book: &Book|
            ensures { result ≡ spec.book_by author place book.now }
        {
            if book.author == author {
                Some(Node::Book(place))
            } else {
                None
            }
        },
    )
}

/// The books of the author at a place, as far as `first` and `skip` say.
fn written(alloc: Global, library: &Library, author: usize, given: &Given<'_>) -> Answer<Node>
    ensures { Answers (spec.page (spec.books_by library.now author) (given_to given.now)) result }
{
    first(
        skip(
            books_by(alloc, library, author),
            given.count_or_null("skip"),
        ),
        given.count_or_null("first"),
    )
}

fn of_author(
    alloc: Global,
    library: &Library,
    place: usize,
    author: &Author,
    field: &str,
    given: &Given<'_>,
) -> Answer<Node>
    ensures { Answers (spec.of_author library.now place author.now field.now (given_to given.now))
        result }
{
    match field {
        "id" => text(alloc, author.id),
        "name" => text(alloc, author.name),
        "books" => written(alloc, library, place, given),
        _ => null(),
    }
}

impl Resolver for Librarian {
    type Context = Library;

    type Node = Node;

    ghost use Rattle.library.specs.Library as spec;
    ghost use Rattle.library.specs.declared.data.Node.TheVariants as node;

    ghost root_node = { λ _. node.Query };

    ghost type_of = { λ _ _ n. spec.type_name n };

    ghost answer = { λ _ library n field given. spec.answer library n field given };

    fn root(&self) -> Node
        ensures { result ≡ node.Query }
    {
        Node::Query
    }

    fn type_name<'c>(&'c self, _context: &'c Library, node: &'c Node) -> &'c str
        ensures { result.now ≡ spec.type_name node.now }
    {
        match node {
            Node::Query => "Query",
            Node::Book(_) => "Book",
            Node::Magazine(_) => "Magazine",
            Node::Author(_) => "Author",
        }
    }

    fn resolve(
        &self,
        alloc: Global,
        context: &Library,
        node: &Node,
        field: &str,
        given: &Given<'_>,
    ) -> Answer<Node> {
        match node {
            Node::Query => of_query(alloc, context, field, given),
            Node::Book(place) => match context.books.get(*place) {
                Some(book) => of_book(alloc, book, field),
                None => null(),
            },
            Node::Magazine(place) => match context.magazines.get(*place) {
                Some(magazine) => of_magazine(alloc, magazine, field),
                None => null(),
            },
            Node::Author(place) => match context.authors.get(*place) {
                Some(author) => of_author(alloc, context, *place, author, field, given),
                None => null(),
            },
        }
    }
}

impl MutationResolver for Librarian {
    ghost use Rattle.library.specs.Library as spec;

    ghost change_answer = { λ _ library field given. spec.change_answer library field given };

    ghost change_after = { λ _ library field given. spec.change_after library field given };

    fn change(
        &self,
        alloc: Global,
        context: &mut Library,
        field: &str,
        given: &Given<'_>,
    ) -> Answer<Node> {
        if field != "pick" {
            return null();
        }
        let id = given.id("id")?;
        match book_place(context.books, id.as_str()) {
            Some(place) => {
                context.picked = Some(place);
                node(Node::Book(place))
            }
            None => fails_with(alloc, "no book has this id", &[("code", "NOT_FOUND")]),
        }
    }
}
