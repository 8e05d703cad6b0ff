// Records of the offered globals and functions: correct ones, and others. The clauses are proved;
// nothing calls these functions.

ghost use Rattle.std.specs.Prelude.{◌≡◌, ◌*◌, true, false, None, Some, [], ◌∷◌};
ghost use Rattle.smith_types.specs.Syntax.value_type.ValType.TheVariants.{I32, I64, Ref};
ghost use Rattle.smith_types.specs.Syntax.value_type.HeapType.TheVariants.{Concrete, Exact};
ghost use Rattle.smith_types.specs.Syntax.Features.{every_feature};
ghost use Rattle.smith_types.specs.ExampleFeatures.{usual_features};
ghost use Rattle.smith_types.specs.ExampleTypes.{nullable, not_null};
ghost use Rattle.smith_types.specs.ExampleContexts.{context_with};
ghost use Rattle.smith_draw_consts.specs.ExampleConstExprs.{context_of_types};
ghost use Rattle.smith_draw_consts.specs.KeptOffers.{AreAllRead, AreFewRead, AreFlags, AreManyKept, HasReadAll, IsCounted, IsFewWhole};
ghost use Rattle.smith_draw_consts.specs.KeptOffers.{IsKeptOffer, IsWhole};
ghost use Rattle.smith_draw_consts.specs.declared.classes.Classes.{Classes};
ghost use Rattle.smith_draw_consts.specs.declared.few_items.FewItems.{FewItems};
ghost use Rattle.smith_draw_consts.specs.declared.kept_offers.KeptOffers.{KeptOffers};
ghost use Rattle.smith_draw_consts.specs.declared.kept_offers.ManyItems.{ManyItems};
ghost use Rattle.smith_draw_examples.specs.ExampleKeptOffers.{counts, unread, kept_for, functions, to_functions, numbers, HasClasses};
ghost use Rattle.smith_draw_examples.specs.ExampleKeptOffers.{HasEntries, AreGlobalClasses, AreSums, HasFew, HasFewAlone};
ghost use Rattle.smith_draw_examples.specs.ExampleKeptOffers.{too_few_functions};

fn counted()
    ensures nothing_read { IsCounted (λ n. n) unread }
    ensures one_block { IsCounted (λ n. n) (counts 8 8 (0 ∷ [])) }
    ensures two_blocks { IsCounted (λ n. n) (counts 9 9 (0 ∷ 8 ∷ [])) }
    ensures nothing_offered { IsCounted (λ n. 0) (counts 17 0 (0 ∷ 0 ∷ 0 ∷ [])) }
    ensures two_items_each { IsCounted (λ n. 2 * n) (counts 10 20 (0 ∷ 16 ∷ [])) }
{}

fn not_counted()
    ensures a_total_too_low { ¬ IsCounted (λ n. n) (counts 9 8 (0 ∷ 8 ∷ [])) }
    ensures a_total_too_high { ¬ IsCounted (λ n. n) (counts 9 10 (0 ∷ 8 ∷ [])) }
    ensures a_start_too_low { ¬ IsCounted (λ n. n) (counts 9 9 (0 ∷ 7 ∷ [])) }
    ensures a_start_too_high { ¬ IsCounted (λ n. n) (counts 9 9 (0 ∷ 9 ∷ [])) }
    ensures the_first_start_too_high { ¬ IsCounted (λ n. n) (counts 8 8 (1 ∷ [])) }
    ensures starts_in_another_order { ¬ IsCounted (λ n. n) (counts 9 9 (8 ∷ 0 ∷ [])) }
    ensures the_last_block_left_out { ¬ IsCounted (λ n. n) (counts 9 9 (0 ∷ [])) }
    ensures a_block_too_many { ¬ IsCounted (λ n. n) (counts 8 8 (0 ∷ 8 ∷ [])) }
    ensures a_block_of_no_items { ¬ IsCounted (λ n. n) (counts 0 0 (0 ∷ [])) }
{}

#[tactic(auto, unfolding(smith_draw_types::specs::Below::is_heap_below, smith_draw_types::specs::Offered::ancestors))]
fn kept()
    ensures nothing_seen { IsKeptOffer (context_with usual_features 3) (kept_for I32 unread unread) }
    ensures all_globals { IsKeptOffer (context_with usual_features 3) numbers }
    ensures the_first_global { IsKeptOffer (context_with usual_features 3) (kept_for I32 (counts 1 1 (0 ∷ [])) unread) }
    ensures no_global_of_another_type { IsKeptOffer (context_with usual_features 3)
        (kept_for I64 (counts 3 0 (0 ∷ [])) (counts 2 0 (0 ∷ []))) }
    ensures all_functions { IsKeptOffer (context_with usual_features 3) functions }
    ensures a_function_that_is_known_exactly { IsKeptOffer (context_with every_feature 3)
        (kept_for (Ref (not_null (Exact 0))) (counts 3 0 (0 ∷ [])) (counts 2 1 (0 ∷ []))) }
    ensures for_the_last_type { IsKeptOffer (context_with usual_features 3) (kept_for (Ref (nullable (Concrete 5))) unread unread) }
{}

#[tactic(auto, unfolding(smith_draw_types::specs::Below::is_heap_below, smith_draw_types::specs::Offered::ancestors))]
fn not_kept()
    ensures a_global_left_out { ¬ IsKeptOffer (context_with usual_features 3) (kept_for I32 (counts 3 1 (0 ∷ [])) (counts 2 0 (0 ∷ []))) }
    ensures a_mutable_global { ¬ IsKeptOffer (context_with usual_features 3) (kept_for I32 (counts 2 2 (0 ∷ [])) (counts 2 0 (0 ∷ []))) }
    ensures a_global_that_was_not_seen { ¬ IsKeptOffer (context_with usual_features 3)
        (kept_for I32 (counts 1 2 (0 ∷ [])) (counts 2 0 (0 ∷ []))) }
    ensures a_global_before_the_first { ¬ IsKeptOffer (context_with usual_features 3)
        (kept_for I32 (counts 3 2 (1 ∷ [])) (counts 2 0 (0 ∷ []))) }
    ensures a_block_of_globals_left_out { ¬ IsKeptOffer (context_with usual_features 3)
        (kept_for I32 (counts 3 2 []) (counts 2 0 (0 ∷ []))) }
    ensures a_global_of_another_type { ¬ IsKeptOffer (context_with usual_features 3)
        (kept_for I64 (counts 1 1 (0 ∷ [])) (counts 2 0 (0 ∷ []))) }
    ensures more_globals_than_exist { ¬ IsKeptOffer (context_with usual_features 3)
        (kept_for I32 (counts 4 2 (0 ∷ [])) (counts 2 0 (0 ∷ []))) }
    ensures a_function_left_out { ¬ IsKeptOffer (context_with usual_features 3) too_few_functions }
    ensures an_imported_function_exactly { ¬ IsKeptOffer (context_with every_feature 3)
        (kept_for (Ref (not_null (Exact 0))) (counts 3 0 (0 ∷ [])) (counts 2 2 (0 ∷ []))) }
    ensures more_functions_than_exist { ¬ IsKeptOffer (context_with usual_features 3)
        (kept_for to_functions (counts 3 0 (0 ∷ [])) (counts 3 2 (0 ∷ []))) }
    ensures for_a_type_that_does_not_exist { ¬ IsKeptOffer (context_with usual_features 3)
        (kept_for (Ref (nullable (Concrete 6))) unread unread) }
{}

#[tactic(auto, unfolding(smith_draw_types::specs::Below::is_heap_below, smith_draw_types::specs::Offered::ancestors))]
fn whole()
    ensures of_nothing { IsWhole (context_of_types []) I32 (kept_for I32 unread unread) }
    ensures all_globals { IsWhole (context_with usual_features 3) I32 numbers }
    ensures the_visible_globals { IsWhole (context_with usual_features 2) I32 (kept_for I32 (counts 2 1 (0 ∷ [])) (counts 2 0 (0 ∷ []))) }
    ensures all_functions { IsWhole (context_with usual_features 3) to_functions functions }
    ensures a_global_left_out { ¬ IsWhole (context_with usual_features 3) I32 (kept_for I32 (counts 2 1 (0 ∷ [])) (counts 2 0 (0 ∷ []))) }
    ensures a_global_that_is_not_visible { ¬ IsWhole (context_with usual_features 2) I32 numbers }
    ensures a_function_left_out { ¬ IsWhole (context_with usual_features 3) to_functions too_few_functions }
    ensures for_another_type { ¬ IsWhole (context_with usual_features 3) to_functions numbers }
{}

fn classes()
    ensures nothing_read { (classes : Classes) → HasClasses classes [] [] → AreGlobalClasses classes }
    ensures all_globals { (classes : Classes) → HasClasses classes (Some I32 ∷ None ∷ []) (0 ∷ 1 ∷ 0 ∷ []) → AreGlobalClasses classes }
    ensures two_classes_of_one_type { (classes : Classes) → HasClasses classes (Some I32 ∷ None ∷ Some I32 ∷ []) (0 ∷ 1 ∷ 2
        ∷ []) → AreGlobalClasses classes }
    ensures a_mutable_global_in_a_class_of_numbers { (classes : Classes) → HasClasses classes (Some I32 ∷ []) (0 ∷ 0
        ∷ []) → ¬ AreGlobalClasses classes }
    ensures an_immutable_global_among_the_mutable { (classes : Classes) → HasClasses classes (None ∷ []) (0
        ∷ []) → ¬ AreGlobalClasses classes }
    ensures a_class_of_another_type { (classes : Classes) → HasClasses classes (Some I64 ∷ []) (0 ∷ []) → ¬ AreGlobalClasses classes }
    ensures a_class_that_does_not_exist { (classes : Classes) → HasClasses classes (Some I32 ∷ []) (1 ∷ []) → ¬ AreGlobalClasses classes }
    ensures a_class_of_no_global { (classes : Classes) → HasClasses classes (Some I32 ∷ None ∷ []) (0 ∷ []) → ¬ AreGlobalClasses classes }
    ensures more_globals_than_exist { (classes : Classes) → HasClasses classes (Some I32 ∷ None ∷ []) (0 ∷ 1 ∷ 0 ∷ 0
        ∷ []) → ¬ AreGlobalClasses classes }
{}

fn flags()
    ensures nothing_tested { AreFlags [] I32 (Some I32 ∷ []) [] }
    ensures all_tested { AreFlags [] I32 (Some I64 ∷ None ∷ Some I32 ∷ []) (false ∷ false ∷ true ∷ []) }
    ensures the_first_tested { AreFlags [] I32 (Some I32 ∷ None ∷ []) (true ∷ []) }
    ensures mutable_globals_offered { ¬ AreFlags [] I32 (None ∷ []) (true ∷ []) }
    ensures another_type_offered { ¬ AreFlags [] I32 (Some I64 ∷ []) (true ∷ []) }
    ensures its_type_not_offered { ¬ AreFlags [] I32 (Some I32 ∷ []) (false ∷ []) }
    ensures more_flags_than_classes { ¬ AreFlags [] I32 [] (false ∷ []) }
{}

fn offers()
    ensures nothing_kept { (many : ManyItems) → HasEntries many [] → AreManyKept (context_with usual_features 3) many }
    ensures of_two_types { (many : ManyItems) → HasEntries many (numbers ∷ functions ∷ []) → AreManyKept
        (context_with usual_features 3) many }
    ensures of_which_one_is_wrong { (many : ManyItems) → HasEntries many (numbers ∷ too_few_functions ∷ []) → ¬ AreManyKept
        (context_with usual_features 3) many }
{}

fn recorded()
    ensures nothing_recorded { AreSums (5 ∷ []) [] }
    ensures the_first_number { AreSums (5 ∷ 7 ∷ []) (5 ∷ []) }
    ensures all_numbers { AreSums (5 ∷ 7 ∷ []) (5 ∷ 8 ∷ []) }
    ensures without_its_place { ¬ AreSums (5 ∷ 7 ∷ []) (5 ∷ 7 ∷ []) }
    ensures in_another_order { ¬ AreSums (5 ∷ 7 ∷ []) (8 ∷ 5 ∷ []) }
    ensures more_records_than_numbers { ¬ AreSums (5 ∷ []) (5 ∷ 8 ∷ []) }
{}

fn few_read()
    ensures nothing_read { (few : FewItems) → HasFew few [] [] → AreFewRead (context_with usual_features 3) few }
    ensures a_global { (few : FewItems) → HasFew few (Some I32 ∷ []) [] → AreFewRead (context_with usual_features 3) few }
    ensures all_items { (few : FewItems) → HasFew few (Some I32 ∷ None ∷ Some I32 ∷ []) (0 ∷ 0 ∷ []) → AreFewRead
        (context_with usual_features 3) few }
    ensures a_mutable_global_with_a_type { (few : FewItems) → HasFew few (Some I32 ∷ Some I32 ∷ []) [] → ¬ AreFewRead
        (context_with usual_features 3) few }
    ensures an_immutable_global_without { (few : FewItems) → HasFew few (None ∷ []) [] → ¬ AreFewRead (context_with usual_features 3) few }
    ensures a_global_of_another_type { (few : FewItems) → HasFew few (Some I64 ∷ []) [] → ¬ AreFewRead (context_with usual_features 3) few }
    ensures a_function_of_another_type { (few : FewItems) → HasFew few [] (1 ∷ []) → ¬ AreFewRead (context_with usual_features 3) few }
    ensures more_functions_than_exist { (few : FewItems) → HasFew few [] (0 ∷ 0 ∷ 0 ∷ []) → ¬ AreFewRead
        (context_with usual_features 3) few }
{}

fn few_whole()
    ensures all_items { (few : FewItems) → HasFew few (Some I32 ∷ None ∷ Some I32 ∷ []) (0 ∷ 0 ∷ []) → IsFewWhole
        (context_with usual_features 3) few }
    ensures the_visible_globals { (few : FewItems) → HasFew few (Some I32 ∷ None ∷ []) (0 ∷ 0 ∷ []) → IsFewWhole
        (context_with usual_features 2) few }
    ensures a_visible_global_left_out { (few : FewItems) → HasFew few (Some I32 ∷ None ∷ []) (0 ∷ 0 ∷ []) → ¬ IsFewWhole
        (context_with usual_features 3) few }
    ensures a_function_left_out { (few : FewItems) → HasFew few (Some I32 ∷ None ∷ Some I32 ∷ []) (0 ∷ []) → ¬ IsFewWhole
        (context_with usual_features 3) few }
    ensures a_wrong_type { (few : FewItems) → HasFew few (Some I32 ∷ None ∷ Some I64 ∷ []) (0 ∷ 0 ∷ []) → ¬ IsFewWhole
        (context_with usual_features 3) few }
{}

fn all_read()
    ensures few { (kept : KeptOffers) → HasFewAlone kept (Some I32 ∷ None ∷ Some I32 ∷ []) (0 ∷ 0 ∷ []) → HasReadAll
        (context_with usual_features 3) I32 0 kept }
    ensures few_without_a_function { (kept : KeptOffers) → HasFewAlone kept (Some I32 ∷ None ∷ Some I32 ∷ []) (0 ∷ []) → ¬ HasReadAll
        (context_with usual_features 3) I32 0 kept }
    ensures many { (kept : KeptOffers) (many : ManyItems) → kept.many ≡ Some many → AreAllRead (context_with usual_features 3) many.items
        → many.kept.items ≡ functions ∷ numbers ∷ [] → HasReadAll (context_with usual_features 3) I32 1 kept }
    ensures an_entry_for_another_type { (kept : KeptOffers) (many : ManyItems) → kept.many ≡ Some many → many.kept.items ≡ functions
        ∷ numbers ∷ [] → ¬ HasReadAll (context_with usual_features 3) I32 0 kept }
    ensures no_entry { (kept : KeptOffers) (many : ManyItems) → kept.many ≡ Some many → many.kept.items
        ≡ [] → ¬ HasReadAll (context_with usual_features 3) I32 0 kept }
    ensures a_class_without_a_function { (kept : KeptOffers) (many : ManyItems) → kept.many ≡ Some many → many.items.funcs.of ≡ 0
        ∷ [] → ¬ HasReadAll (context_with usual_features 3) I32 1 kept }
{}
