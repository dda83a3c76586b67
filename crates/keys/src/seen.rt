// What was seen of a lent table by its tests: do its keys rise? It is computed, never claimed. A flag, with no value beside it.
#[derive(Clone, Copy)]
pub struct Seen {
    pub rising: bool,
}

// Of the seven tables.
#[derive(Clone, Copy)]
pub struct AllSeen {
    pub t640: Seen,
    pub t641: Seen,
    pub t642: Seen,
    pub t643: Seen,
    pub t649: Seen,
    pub t730: Seen,
    pub t070: Seen,
}
