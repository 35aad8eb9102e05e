//! The Star Wars data set.

/// What is known of each character.
#[derive(Clone, Copy)]
pub struct Character {
    /// By what it is found.
    pub id: &'static str,

    /// The name.
    pub name: &'static str,

    /// The ids of its friends.
    pub friends: &'static [&'static str],

    /// The episodes in which it appears, by their names.
    pub appears_in: &'static [&'static str],
}

/// A human.
#[derive(Clone, Copy)]
pub struct Human {
    /// What each character has.
    pub character: Character,

    /// The home planet, where it is known.
    pub home_planet: Option<&'static str>,
}

/// A droid.
#[derive(Clone, Copy)]
pub struct Droid {
    /// What each character has.
    pub character: Character,

    /// What it is for.
    pub primary_function: &'static str,
}

/// What fields are asked of: the root of queries, and the characters, each by its place.
#[derive(Clone, Copy, Drop)]
pub enum Node {
    /// The root of queries.
    Query,

    /// The human at this place.
    Human(usize),

    /// The droid at this place.
    Droid(usize),
}

/// What requests are answered from.
#[derive(Drop)]
pub struct Galaxy {
    /// The humans.
    pub humans: &'static [Human],

    /// The droids.
    pub droids: &'static [Droid],

    /// The hero of the saga.
    pub hero: Node,
}

/// The galaxy as it is before the first request. The hero is R2-D2.
pub const GALAXY: Galaxy = Galaxy {
    humans: HUMANS,
    droids: DROIDS,
    hero: Node::Droid(1),
};

const ALL: &[&str] = &["NEW_HOPE", "EMPIRE", "JEDI"];

const HUMANS: &[Human] = &[
    Human {
        character: Character {
            id: "1000",
            name: "Luke Skywalker",
            friends: &["1002", "1003", "2000", "2001"],
            appears_in: ALL,
        },
        home_planet: Some("Tatooine"),
    },
    Human {
        character: Character {
            id: "1001",
            name: "Darth Vader",
            friends: &["1004"],
            appears_in: ALL,
        },
        home_planet: Some("Tatooine"),
    },
    Human {
        character: Character {
            id: "1002",
            name: "Han Solo",
            friends: &["1000", "1003", "2001"],
            appears_in: ALL,
        },
        home_planet: None,
    },
    Human {
        character: Character {
            id: "1003",
            name: "Leia Organa",
            friends: &["1000", "1002", "2000", "2001"],
            appears_in: ALL,
        },
        home_planet: Some("Alderaan"),
    },
    Human {
        character: Character {
            id: "1004",
            name: "Wilhuff Tarkin",
            friends: &["1001"],
            appears_in: &["NEW_HOPE"],
        },
        home_planet: None,
    },
];

const DROIDS: &[Droid] = &[
    Droid {
        character: Character {
            id: "2000",
            name: "C-3PO",
            friends: &["1000", "1002", "1003", "2001"],
            appears_in: ALL,
        },
        primary_function: "Protocol",
    },
    Droid {
        character: Character {
            id: "2001",
            name: "R2-D2",
            friends: &["1000", "1002", "1003"],
            appears_in: ALL,
        },
        primary_function: "Astromech",
    },
];
