ghost use Rattle.std.specs.Prelude.{◌≡◌, [], ◌∷◌, true, false, codes};
ghost use Rattle.std.specs.HashSet.{contains_text, hash_set_len};
ghost use Rattle.smith_bytes.specs.Names.{text_at, with_copies, IsMadeNew, AddsName, url_front, url_path};
ghost use Rattle.smith_bytes_examples.specs.ExampleBytes.{HasNames};

use std::collections::HashSet;

fn texts()
    ensures longest_front { text_at 1000 (97 ∷ 98 ∷ 255 ∷ 3 ∷ []) ≡ (codes "ab", 255 ∷ []) }
    ensures cut { text_at 1 (97 ∷ 98 ∷ 2 ∷ []) ≡ (codes "a", 98 ∷ []) }
    ensures character_of_two_bytes { text_at 9 (97 ∷ 195 ∷ 169 ∷ 3 ∷ []) ≡ (97 ∷ 195 ∷ 169 ∷ [], []) }
    ensures length_ends_in_a_character { text_at 9 (97 ∷ 195 ∷ 169 ∷ 2 ∷ []) ≡ (codes "a", 195 ∷ 169 ∷ []) }
    ensures cut_in_a_character { text_at 2 (97 ∷ 195 ∷ 169 ∷ 3 ∷ []) ≡ (codes "a", 195 ∷ 169 ∷ []) }
    ensures no_front { text_at 9 (255 ∷ 97 ∷ 2 ∷ []) ≡ ([], 255 ∷ 97 ∷ []) }
    ensures half_of_a_pair { text_at 9 (237 ∷ 160 ∷ 128 ∷ 3 ∷ []) ≡ ([], 237 ∷ 160 ∷ 128 ∷ []) }
    ensures of_nothing { text_at 9 [] ≡ ([], []) }
    ensures one_byte_is_dropped { text_at 9 (97 ∷ []) ≡ ([], []) }
{}

fn copies()
    ensures none { with_copies (codes "a") (codes "12") 0 ≡ codes "a" }
    ensures two { with_copies (codes "a") (codes "12") 2 ≡ codes "a1212" }
{}

fn made_new(names: &HashSet<String>)
    ensures new_already { HasNames names.now (codes "b" ∷ []) → IsMadeNew names.now (codes "a") (codes "a") }
    ensures one_copy { HasNames names.now (codes "a" ∷ []) → IsMadeNew names.now (codes "a") (codes "a1") }
    ensures two_copies { HasNames names.now (codes "a" ∷ codes "a2" ∷ []) → IsMadeNew names.now (codes "a") (codes "a22") }
    ensures size_of_two_digits { hash_set_len names.now ≡ 12 → contains_text names.now (codes "a") ≡ true → contains_text names.now
        (codes "a12") ≡ false → IsMadeNew names.now (codes "a") (codes "a12") }
    ensures a_copy_that_is_not_needed { HasNames names.now (codes "b" ∷ []) → ¬ IsMadeNew names.now (codes "a") (codes "a1") }
    ensures still_there { HasNames names.now (codes "a" ∷ []) → ¬ IsMadeNew names.now (codes "a") (codes "a") }
    ensures another_number { HasNames names.now (codes "a" ∷ []) → ¬ IsMadeNew names.now (codes "a") (codes "a2") }
{}

fn added(old: &HashSet<String>, new: &HashSet<String>)
    ensures one_more { HasNames old.now (codes "a" ∷ []) → HasNames new.now (codes "b" ∷ codes "a" ∷ []) → AddsName old.now new.now
        (codes "b") }
    ensures not_added { HasNames old.now (codes "a" ∷ []) → HasNames new.now (codes "a" ∷ []) → ¬ AddsName old.now new.now (codes "b") }
    ensures another_is_lost { HasNames old.now (codes "a" ∷ []) → HasNames new.now (codes "b" ∷ []) → ¬ AddsName old.now new.now
        (codes "b") }
    ensures another_beside { HasNames old.now [] → HasNames new.now (codes "b" ∷ codes "c" ∷ []) → ¬ AddsName old.now new.now (codes "b") }
{}

fn addresses()
    ensures front { url_front ≡ codes "https://example.com/" }
    ensures path { url_path (codes "https://example.com/a-1") ≡ codes "a-1" }
{}
