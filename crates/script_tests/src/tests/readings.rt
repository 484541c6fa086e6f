//! Texts that are scripts, with the limits and the lines that are read.

use super::{DEFAULTS, ReadRow};
use commons::limits::{Limits, PutRule};

const OF_NINE: Limits = Limits {
    population: 9,
    ..DEFAULTS
};

pub(super) const ROWS: &[ReadRow] = &[
    (
        "parse reads the first run",
        "pool 3\nalloc a\nalloc b\nfree a\n",
        Limits {
            population: 3,
            ..DEFAULTS
        },
        None,
        "2 1 alloc a; 3 1 alloc b; 4 1 free a; ",
    ),
    (
        "a good script is read",
        "# a pool\n\n  pool 12 tries 7 buf 0100  start 3 putrule 01 workers 2 refs 9 desks 4 cache 08 \n   \n\
        alloc a\n  free   b9 \n#x\nalloc b9\n2: free a\n 002:  flush\n1: alloc c\n",
        Limits {
            population: 12,
            cache: 8,
            workers: 2,
            desks: 4,
            buf: 100,
            ref_limit: 9,
            tries: 7,
            start_count: 3,
            put_rule: PutRule::Whole,
        },
        None,
        "5 1 alloc a; 6 1 free b9; 8 1 alloc b9; 9 2 free a; 10 2 flush; 11 1 alloc c; ",
    ),
    (
        "the second pool has all of the first but its size, its cache, its buffers and its desks",
        "pool 12 second 20 tries 7 buf 100 start 3 putrule 1 workers 2 refs 9 desks 4 cache 8 \
        secondcache 5\n2: cloneto a b\n",
        Limits {
            population: 12,
            cache: 8,
            workers: 2,
            desks: 4,
            buf: 100,
            ref_limit: 9,
            tries: 7,
            start_count: 3,
            put_rule: PutRule::Whole,
        },
        Some(Limits {
            population: 20,
            cache: 5,
            workers: 2,
            desks: 0,
            buf: 0,
            ref_limit: 9,
            tries: 7,
            start_count: 3,
            put_rule: PutRule::Whole,
        }),
        "2 2 cloneto a b; ",
    ),
    (
        "the commands of packets are read",
        "pool 9\nbulk a b  c\nappend a 7\nprepend a 65535\n adj b 00 \ntrim c 1\nchain a b\n",
        OF_NINE,
        None,
        "2 1 bulk a b c; 3 1 append 7 of a; 4 1 prepend 65535 of a; 5 1 adj 0 of b; \
        6 1 trim 1 of c; 7 1 chain a b; ",
    ),
    (
        "the commands of shared buffers are read",
        "pool 9\nattach a b\ndetach  a\nclone b c\ncount c\n 1:  attach d d \n1: clone a1 b2\n",
        OF_NINE,
        None,
        "2 1 attach a b; 3 1 detach a; 4 1 clone b c; 5 1 count c; 6 1 attach d d; \
        7 1 clone a1 b2; ",
    ),
    // The number of a desk is read whether the pool has that many or not.
    (
        "the commands of desks are read",
        "pool 9 workers 2\noffer a 0\ntake 0 b\n 2:  offer  a1  007 \n2: take 65535 a\n\
        offer b 65535\n",
        Limits {
            workers: 2,
            ..OF_NINE
        },
        None,
        "2 1 offer a 0; 3 1 take 0 b; 4 2 offer a1 7; 5 2 take 65535 a; 6 1 offer b 65535; ",
    ),
    (
        "a pool line alone is a script with the defaults",
        "pool 3\n",
        Limits {
            population: 3,
            cache: 0,
            workers: 1,
            desks: 0,
            buf: 2_048,
            ref_limit: 65_535,
            tries: 64,
            start_count: 0,
            put_rule: PutRule::Keep,
        },
        None,
        "",
    ),
    (
        "a pool has 64 desks at most",
        "pool 3 desks 64\n",
        Limits {
            population: 3,
            desks: 64,
            ..DEFAULTS
        },
        None,
        "",
    ),
];
