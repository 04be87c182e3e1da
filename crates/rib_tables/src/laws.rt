//! Laws of the definitions of words and choices. Each is the contract of a function without work of its own.

ghost use Rattle.rib_tables.specs.Promises.{LastWordStays, LastWordGoesOn, OneLastWord, WordFollows, WordsFollow, LastIsLastMention, OneBest, BestAmongPaths, BestOverWords};

use ranked_policy::laws::each_policy_is_an_order;

/// A peer of which nothing was known sends the UPDATEs of a list. After them, each prefix of the
/// network has the word of its last mention, or the empty path if none mentions it. A prefix that
/// the network does not name has the empty path. The words of other peers are as they were.
pub fn the_last_word_stays()
    ensures { LastWordStays }
{}

/// If the word of a peer for a prefix of the network is the last word of some UPDATEs, then after
/// one UPDATE more it is the last word of those and this one.
pub fn the_last_word_goes_on()
    ensures { LastWordGoesOn }
{}

/// A list of UPDATEs has one last word for each prefix.
pub fn the_last_word_is_one()
    ensures { OneLastWord }
{}

/// An UPDATE of a peer gives each prefix of the network a word: what the UPDATE announces, else
/// nothing if it withdraws the prefix, else the word before.
pub fn the_word_follows()
    ensures { WordFollows }
{}

/// The UPDATEs of a list give each prefix of the network a word one after the other, each as `the_word_follows` says.
pub fn the_words_follow()
    ensures { WordsFollow }
{}

/// The UPDATEs of a list lead from nothing to the word of the last mention.
pub fn what_follows_is_the_last_mention()
    ensures { LastIsLastMention }
{}

/// A router has at most one best path.
pub fn the_best_is_one()
    ensures { OneBest }
{
    each_policy_is_an_order();
}

/// If the sessions over all links are Established and the words heard are the peers' paths, the best path is that of an
/// assignment of paths: the first permitted of the paths "the router, then the path of a linked router".
pub fn the_best_is_among_the_paths()
    ensures { BestAmongPaths }
{}

/// Whichever sessions are Established, the best path is the best over the words of the linked routers. An Established
/// peer's word is what it said, read as a path; every other router's word is the empty path.
pub fn the_best_is_over_the_words()
    ensures { BestOverWords }
{}
