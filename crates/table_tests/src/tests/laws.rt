//! Calls each law once.

use ranked_policy::laws::{
    each_policy_is_an_order, policies_are_tests, the_best_is_the_first, the_longest_rule_is_one,
};
use rib_tables::laws::{
    the_best_is_among_the_paths, the_best_is_one, the_best_is_over_the_words,
    the_last_word_goes_on, the_last_word_is_one, the_last_word_stays, the_word_follows,
    the_words_follow, what_follows_is_the_last_mention,
};

#[test]
fn each_law_holds_at_a_type() {
    policies_are_tests();
    the_best_is_the_first();
    the_longest_rule_is_one();
    each_policy_is_an_order();
    the_last_word_stays();
    the_last_word_goes_on();
    the_last_word_is_one();
    the_word_follows();
    the_words_follow();
    what_follows_is_the_last_mention();
    the_best_is_one();
    the_best_is_among_the_paths();
    the_best_is_over_the_words();
}
