//! The resolver of Star Wars.

ghost use Rattle.std.specs.Option.{option_map};
ghost use Rattle.std.specs.Prelude.{◌≡◌};
ghost use Rattle.graphql_resolvers.specs.Answers as answers;
ghost use Rattle.graphql_resolvers.specs.Answers.{Answers};
ghost use Rattle.graphql_resolvers.specs.Given.{given_to};
ghost use Rattle.star_wars.specs.StarWars as spec;

use crate::data::{Character, Droid, Galaxy, Human, Node};
use graphql_resolvers::{
    Answer, Given, MutationResolver, Resolver, each, fails, node, node_or_null, null, text,
    text_or_null, texts,
};
use std::alloc::Global;

/// Answers from the galaxy.
#[derive(Drop)]
pub struct StarWars;

/// The place of the human of this id.
fn human_place(humans: &[Human], id: &str) -> Option<usize>
    ensures { result ≡ spec.human_place humans.now id.now }
{
    humans.iter().position(|human| human.character.id == id)
}

/// The place of the droid of this id.
fn droid_place(droids: &[Droid], id: &str) -> Option<usize>
    ensures { result ≡ spec.droid_place droids.now id.now }
{
    droids.iter().position(|droid| droid.character.id == id)
}

/// The human of this id.
fn human_of(galaxy: &Galaxy, id: &str) -> Option<Node>
    ensures { result ≡ spec.human_of galaxy.now id.now }
{
    match human_place(galaxy.humans, id) {
        Some(place) => Some(Node::Human(place)),
        None => None,
    }
}

/// The droid of this id.
fn droid_of(galaxy: &Galaxy, id: &str) -> Option<Node>
    ensures { result ≡ spec.droid_of galaxy.now id.now }
{
    match droid_place(galaxy.droids, id) {
        Some(place) => Some(Node::Droid(place)),
        None => None,
    }
}

/// The character of this id.
fn character_of(galaxy: &Galaxy, id: &str) -> Option<Node>
    ensures { result ≡ spec.character_of galaxy.now id.now }
{
    match human_of(galaxy, id) {
        Some(node) => Some(node),
        None => droid_of(galaxy, id),
    }
}

/// The hero of an episode: Luke of the fifth, and of any other that of the saga.
fn hero_of(galaxy: &Galaxy, episode: Option<&str>) -> Node
    ensures { result ≡ spec.hero_of galaxy.now (option_map (λ e. e.now) episode.entry) }
{
    match episode {
        Some("EMPIRE") => Node::Human(0),
        _ => galaxy.hero,
    }
}

/// The characters of these ids, each `null` where there is none.
fn friends(alloc: Global, galaxy: &Galaxy, ids: &[&str]) -> Answer<Node>
    ensures { Answers (answers.each (spec.friend galaxy.now) ids.now) result }
{
    each(
        alloc,
        ids,
        |id: &&str|
            ensures { Answers (spec.friend galaxy.entry.now id.now) result }
        { node_or_null(character_of(galaxy, *id)) },
    )
}

fn of_query(galaxy: &Galaxy, field: &str, given: &Given<'_>) -> Answer<Node>
    ensures { Answers (spec.of_query galaxy.now field.now (given_to given.now)) result }
{
    match field {
        "hero" => node(hero_of(galaxy, given.word_or_null("episode")?)),
        "human" => node_or_null(human_of(galaxy, given.word("id")?)),
        "droid" => node_or_null(droid_of(galaxy, given.word("id")?)),
        _ => null(),
    }
}

fn of_character(alloc: Global, galaxy: &Galaxy, character: &Character, field: &str) -> Answer<Node>
    ensures { Answers (spec.of_character galaxy.now character.now field.now) result }
{
    match field {
        "id" => text(alloc, character.id),
        "name" => text(alloc, character.name),
        "friends" => friends(alloc, galaxy, character.friends),
        "appearsIn" => texts(alloc, character.appears_in),
        "secretBackstory" => fails(alloc, "secretBackstory is secret."),
        _ => null(),
    }
}

fn of_human(alloc: Global, galaxy: &Galaxy, human: &Human, field: &str) -> Answer<Node>
    ensures { Answers (spec.of_human galaxy.now human.now field.now) result }
{
    match field {
        "homePlanet" => text_or_null(alloc, human.home_planet),
        _ => of_character(alloc, galaxy, &human.character, field),
    }
}

fn of_droid(alloc: Global, galaxy: &Galaxy, droid: &Droid, field: &str) -> Answer<Node>
    ensures { Answers (spec.of_droid galaxy.now droid.now field.now) result }
{
    match field {
        "primaryFunction" => text(alloc, droid.primary_function),
        _ => of_character(alloc, galaxy, &droid.character, field),
    }
}

impl Resolver for StarWars {
    type Context = Galaxy;

    type Node = Node;

    ghost use Rattle.star_wars.specs.StarWars as spec;
    ghost use Rattle.star_wars.specs.declared.data.Node.TheVariants as node;

    ghost root_node = { λ _. node.Query };

    ghost type_of = { λ _ _ n. spec.type_name n };

    ghost answer = { λ _ galaxy n field given. spec.answer galaxy n field given };

    fn root(&self) -> Node
        ensures { result ≡ node.Query }
    {
        Node::Query
    }

    fn type_name<'c>(&'c self, _context: &'c Galaxy, node: &'c Node) -> &'c str
        ensures { result.now ≡ spec.type_name node.now }
    {
        match node {
            Node::Query => "Query",
            Node::Human(_) => "Human",
            Node::Droid(_) => "Droid",
        }
    }

    fn resolve(
        &self,
        alloc: Global,
        context: &Galaxy,
        node: &Node,
        field: &str,
        given: &Given<'_>,
    ) -> Answer<Node> {
        match node {
            Node::Query => of_query(context, field, given),
            Node::Human(place) => match context.humans.get(*place) {
                Some(human) => of_human(alloc, context, human, field),
                None => null(),
            },
            Node::Droid(place) => match context.droids.get(*place) {
                Some(droid) => of_droid(alloc, context, droid, field),
                None => null(),
            },
        }
    }
}

impl MutationResolver for StarWars {
    ghost use Rattle.star_wars.specs.StarWars as spec;

    ghost change_answer = { λ _ galaxy field given. spec.change_answer galaxy field given };

    ghost change_after = { λ _ galaxy field given. spec.change_after galaxy field given };

    fn change(
        &self,
        alloc: Global,
        context: &mut Galaxy,
        field: &str,
        given: &Given<'_>,
    ) -> Answer<Node> {
        if field != "chooseHero" {
            return null();
        }
        match character_of(context, given.word("id")?) {
            Some(hero) => {
                context.hero = hero;
                node(hero)
            }
            None => fails(alloc, "no character has this id"),
        }
    }
}
