//! Lists between two tokens.

ghost use Rattle.std.specs.Prelude.{◌≡◌, ◌<◌, ◌≤◌, [], ◌∷◌, ◌++◌, OnOk, IfErr};
ghost use Rattle.graphql_grammar.specs.Input.{left};
ghost use Rattle.graphql_language.specs.Lists.{Item, Full, Until, AnyItems, SomeItems, Delimited};

use super::Parser;
use graphql_grammar::{Fault, keep};
use graphql_text::{Items, ParseResult, Spanning, Token, UnlocatedParseResult};

impl<'a> Parser<'a> {
    /// Any number of items between two tokens, in the part of the text from the opening token to
    /// the closing one. The end of the text opens no list and closes none.
    ///
    /// `parse` reads an item. It may be called at every parser with fewer tokens left, and leaves
    /// fewer than it found. By its refusal the parser has failed.
    pub fn delimited_list<T: Drop, F: Fn(&mut Parser<'a>) -> ParseResult<T>>(
        &mut self,
        opening: &Token<'_>,
        parse: F,
        closing: &Token<'_>,
    ) -> ParseResult<Items<Spanning<T>>>
        requires callable { (p : _) → left p.now.input < left self.old.input → F.pre parse p }
        requires fewer { (p q : _) (r : _) → left p.now.input < left self.old.input
            → F.post parse p r q → OnOk r (left q.now.input < left p.now.input) }
        ensures list { Delimited opening.now (AnyItems closing.now (Item F.Fn parse)) self.old
            result self.new }
        ensures fewer { OnOk result (left self.new.input < left self.old.input) }
    {
        let first = match self.expect(opening) {
            Ok(first) => first,
            Err(fault) => return Err(fault),
        };
        let none = Items::new(self.alloc);
        match self.items_until(none, &parse, closing) {
            Ok((items, last)) => Ok(Spanning::start_end(first.span.start, last.span.end, items)),
            Err(fault) => Err(fault),
        }
    }

    /// As `delimited_list`, with one item at least.
    pub fn delimited_nonempty_list<T: Drop, F: Fn(&mut Parser<'a>) -> ParseResult<T>>(
        &mut self,
        opening: &Token<'_>,
        parse: F,
        closing: &Token<'_>,
    ) -> ParseResult<Items<Spanning<T>>>
        requires callable { (p : _) → left p.now.input < left self.old.input → F.pre parse p }
        requires fewer { (p q : _) (r : _) → left p.now.input < left self.old.input
            → F.post parse p r q → OnOk r (left q.now.input < left p.now.input) }
        ensures list { Delimited opening.now (SomeItems closing.now (Item F.Fn parse)) self.old
            result self.new }
        ensures fewer { OnOk result (left self.new.input < left self.old.input) }
    {
        self.unlocated_delimited_nonempty_list(opening, parse, closing)
    }

    /// As `delimited_nonempty_list`, of items without their places.
    pub fn unlocated_delimited_nonempty_list<
        T: Drop,
        F: Fn(&mut Parser<'a>) -> UnlocatedParseResult<T>,
    >(&mut self, opening: &Token<'_>, parse: F, closing: &Token<'_>) -> ParseResult<Items<T>>
        requires callable { (p : _) → left p.now.input < left self.old.input → F.pre parse p }
        requires fewer { (p q : _) (r : _) → left p.now.input < left self.old.input
            → F.post parse p r q → OnOk r (left q.now.input < left p.now.input) }
        ensures list { Delimited opening.now (SomeItems closing.now (Item F.Fn parse)) self.old
            result self.new }
        ensures fewer { OnOk result (left self.new.input < left self.old.input) }
    {
        let first = match self.expect(opening) {
            Ok(first) => first,
            Err(fault) => return Err(fault),
        };
        match self.some_items_until(&parse, closing) {
            Ok((items, last)) => Ok(Spanning::start_end(first.span.start, last.span.end, items)),
            Err(fault) => Err(fault),
        }
    }

    /// One item at least, up to the closing token, and that token.
    fn some_items_until<T: Drop, F: Fn(&mut Parser<'a>) -> Result<T, Fault>>(
        &mut self,
        parse: &F,
        closing: &Token<'_>,
    ) -> Result<(Items<T>, Spanning<Token<'a>>), Fault>
        requires callable { (p : _) → left p.now.input ≤ left self.old.input → F.pre parse.now p }
        requires fewer { (p q : _) (r : _) → left p.now.input ≤ left self.old.input
            → F.post parse.now p r q → OnOk r (left q.now.input < left p.now.input) }
        ensures items { SomeItems closing.now (Item F.Fn parse.now) self.old result self.new }
        ensures fewer { OnOk result (left self.new.input < left self.old.input) }
    {
        let mut found = Items::new(self.alloc);
        let item = match self.item(parse) {
            Ok(item) => item,
            Err(fault) => return Err(fault),
        };
        match self.keep_item(&mut found, item) {
            Ok(()) => self.items_until(found, parse, closing),
            Err(fault) => Err(fault),
        }
    }

    /// The items up to the closing token, behind those that were found, and that token.
    fn items_until<T: Drop, F: Fn(&mut Parser<'a>) -> Result<T, Fault>>(
        &mut self,
        mut found: Items<T>,
        parse: &F,
        closing: &Token<'_>,
    ) -> Result<(Items<T>, Spanning<Token<'a>>), Fault>
        requires callable { (p : _) → left p.now.input ≤ left self.old.input → F.pre parse.now p }
        requires fewer { (p q : _) (r : _) → left p.now.input ≤ left self.old.input
            → F.post parse.now p r q → OnOk r (left q.now.input < left p.now.input) }
        ensures items { Until closing.now (Item F.Fn parse.now) found self.old result self.new }
        ensures no_more { OnOk result (left self.new.input ≤ left self.old.input) }
    {
        'items: loop {
            match self.skip(closing) {
                Ok(Some(last)) => return Ok((found, last)),
                Ok(None) => {}
                Err(fault) => return Err(fault),
            }
            let item = match self.item(parse) {
                Ok(item) => item,
                Err(fault) => return Err(fault),
            };
            match self.keep_item(&mut found, item) {
                Ok(()) => {}
                Err(fault) => return Err(fault),
            }
        }
    }

    /// An item, by the function. By its refusal the parser has failed.
    fn item<T, F: Fn(&mut Parser<'a>) -> Result<T, Fault>>(&mut self, parse: &F) -> Result<T, Fault>
        requires callable { (p : _) → left p.now.input ≤ left self.old.input → F.pre parse.now p }
        requires fewer { (p q : _) (r : _) → left p.now.input ≤ left self.old.input
            → F.post parse.now p r q → OnOk r (left q.now.input < left p.now.input) }
        ensures item { Item F.Fn parse.now self.old result self.new }
        ensures fewer { OnOk result (left self.new.input < left self.old.input) }
    {
        let answer = parse(self);
        self.keep_refusal(answer)
    }

    /// Adds an item to those that were found. By want of memory the parser has failed.
    fn keep_item<T: Drop>(&mut self, found: &mut Items<T>, item: T) -> Result<(), Fault>
        ensures ok { OnOk result (found.new ≡ found.old ++ item ∷ []) }
        ensures stays { OnOk result (self.new ≡ self.old) }
        ensures full { IfErr result (λ fault. Full self.old fault self.new) }
    {
        let answer = match keep(found, item) {
            Ok(()) => Ok(()),
            Err(error) => Err(Fault::from(error)),
        };
        self.keep_refusal(answer)
    }
}
