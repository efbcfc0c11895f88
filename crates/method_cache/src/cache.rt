ghost use Rattle.std.specs.Prelude.{IsTrue, ◌≡◌, List, [], ◌∷◌, ◌++◌, ◌+◌, ◌<◌, ◌≤◌, length, if◌then◌else◌};
ghost use Rattle.method_cache.specs.Residents.{fill_of, fits, is_among, resident, touched, words_of, StandsFor};

use std::marker::Model;

/// The most functions that stand in the cache.
pub const MOST_METHODS: usize = 16;

/// The most words that the functions in the cache have together, their size words not counted.
pub const METHOD_CACHE_WORDS: u32 = 4_096;

/// How many words a transaction moves.
const BURST: u32 = 4;

/// A function and how many words it has, its size word not counted.
#[derive(Clone, Copy, Debug, PartialEq, Eq)]
pub struct Method {
    pub function: u32,
    pub words: u32,
}

/// The functions in the method cache of one core, the oldest first.
#[derive(Debug, Drop)]
pub struct MethodCache {
    places: [Method; MOST_METHODS],
    first: usize,
    count: usize,
    words: u32,
}

impl Model for MethodCache {
    ghost use Rattle.std.specs.Prelude.{List};
    ghost use Rattle.method_cache.specs.declared.cache.Method.{Method};
    ghost use Rattle.method_cache.specs.Ring.{ring, IsRing};

    ghost Value = { List Method };

    ghost view = { λ c. ring c.places c.first c.count };

    ghost invariant = { λ c. IsRing c.places c.first c.count c.words };
}

impl MethodCache {
    /// An empty cache.
    pub fn new() -> MethodCache
        ensures { StandsFor [] result }
    {
        MethodCache {
            places: [Method {
                function: 0,
                words: 0,
            }; MOST_METHODS],
            first: 0,
            count: 0,
            words: 0,
        }
    }

    /// Touches a function of `size` words, its size word not counted, and gives the transactions that
    /// this takes: none where the function is in the cache, else those that bring it in. A function is
    /// known by its number; its size counts where it is brought in.
    #[tactic(auto, using(crate::proofs::Suffix::resident_push))]
    pub fn touch(&mut self, function: u32, size: u32) -> u32
        requires { size ≤ METHOD_CACHE_WORDS }
        ensures transactions { result ≡ (if is_among function self.old then 0 else fill_of size) }

        // Whichever misses the cache is what they leave: it then is what they and this touch leave.
        ensures stands { (misses : List Method) → StandsFor misses self.old
            → StandsFor (touched misses (record { function = function; words = size })) self.new }
    {
        if self.has(function) {
            return 0;
        }
        let method = Method {
            function,
            words: size,
        };
        self.put_in(method);
        (size + 1).div_ceil(BURST)
    }

    /// Whether the function is in the cache.
    #[tactic(auto, using(crate::proofs::RingLemmas::among_next))]
    fn has(&self, function: u32) -> bool
        ensures { result ≡ is_among function self.now }
    {
        for at in 0..self.count {
            if self.places[(self.first + at) % MOST_METHODS].function == function {
                return true;
            }
        }
        false
    }

    /// Puts a function in after the others, and before that the oldest ones out until it fits.
    #[tactic(auto, using(crate::proofs::Suffix::resident_keeps))]
    fn put_in(&mut self, method: Method)
        requires { method.words ≤ METHOD_CACHE_WORDS }
        ensures { self.new ≡ resident (self.old ++ method ∷ []) }
    {
        while !self.has_room(method) {
            self.put_out();
        }
        self.append(method);
    }

    /// Whether the function fits beside those that are there.
    fn has_room(&self, method: Method) -> bool
        requires { method.words ≤ METHOD_CACHE_WORDS }
        ensures { result ≡ fits (self.now ++ method ∷ []) }
    {
        self.count < MOST_METHODS && self.words + method.words <= METHOD_CACHE_WORDS
    }

    /// Puts the oldest function out, and gives it.
    fn put_out(&mut self) -> Method
        requires { 0 < length self.old }
        ensures { self.old ≡ result ∷ self.new }
    {
        let oldest = self.places[self.first];
        self.first = (self.first + 1) % MOST_METHODS;
        self.count -= 1;
        self.words -= oldest.words;
        oldest
    }

    /// Puts a function that fits after the others.
    fn append(&mut self, method: Method)
        requires { IsTrue (fits (self.old ++ method ∷ [])) }
        ensures { self.new ≡ self.old ++ method ∷ [] }
    {
        self.places[(self.first + self.count) % MOST_METHODS] = method;
        self.count += 1;
        self.words += method.words;
    }
}

/// What is in the cache after a list of misses is the longest suffix of the list that fits, and it
/// alone decides what further misses leave. A law: it does nothing.
pub fn residents_are_the_longest_suffix()
    ensures suffix { (misses : List Method) → (older : List Method) × (misses ≡ older ++ resident misses) }
    ensures fitting { (misses : List Method) → IsTrue (fits (resident misses)) }
    ensures longest { (older later : List Method) → IsTrue (fits later)
        → length later ≤ length (resident (older ++ later)) }
    ensures further { (misses : List Method) (method : Method)
        → resident (misses ++ method ∷ []) ≡ resident (resident misses ++ method ∷ []) }
{}

#[cfg(test)]
mod tests {
    use super::*;

    #[test]
    fn the_oldest_of_seventeen_is_put_out(rt: HostRuntime) {
        let mut cache = MethodCache::new();
        for function in 0..17 {
            assert_eq!(rt; cache.touch(function, 10), 3, "function {function}");
        }
        assert_eq!(rt; cache.touch(0, 10), 3);
        assert_eq!(rt; cache.touch(16, 10), 0);
    }

    #[test]
    fn a_function_of_all_the_words_puts_out_the_others(rt: HostRuntime) {
        let mut cache = MethodCache::new();
        for (function, size, want) in [
            (1, 0, 1),
            (1, 0, 0),
            (2, 4095, 1024),
            (1, 0, 0),
            (3, 4096, 1025),
            (3, 4096, 0),
            (1, 0, 1),
        ] {
            assert_eq!(rt; cache.touch(function, size), want, "function {function}");
        }
    }
}
