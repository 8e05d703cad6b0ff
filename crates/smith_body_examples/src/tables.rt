#![tactic(auto, unfolding(smith_body_tables::specs::TableChoices::table_value_at, smith_body_tables::specs::TableChoices::table_change_at, smith_body_nodes::specs::Items::index_at, smith_body_nodes::specs::Items::item_at, smith_body_nodes::specs::Offered::chunk_at, smith_body_nodes::specs::Offered::offered, smith_draw_types::specs::Below::is_heap_below, smith_draw_types::specs::Choices::chosen_at, smith_bytes::specs::Draws::bool_at, smith_bytes::specs::Draws::choose_at, smith_bytes::specs::Draws::digit_count, smith_bytes::specs::Draws::range_at))]

ghost use Rattle.std.specs.Prelude.{◌≡◌, Some, None, [], ◌∷◌};
ghost use Rattle.smith_types.specs.Flags.{funcref};
ghost use Rattle.smith_types.specs.Syntax.value_type.ValType.TheVariants.{I32, I64, F32, Ref};
ghost use Rattle.smith_instr.specs.declared.instr.Instr.TheVariants as instr;
ghost use Rattle.smith_instr.specs.declared.table.TableInstr.TheVariants as table;
ghost use Rattle.smith_instr_examples.specs.ExampleBodies.{some_func};
ghost use Rattle.smith_body_nodes.specs.Nodes.{node_of};
ghost use Rattle.smith_body_tables.specs.TableChoices.{table_change_at, table_value_at};
ghost use Rattle.smith_body_examples.specs.ExampleContexts.{external, externals, holding, tabled, without_references};

fn gets()
    ensures second_of_two { table_value_at tabled (Ref funcref) (1 ∷ 9 ∷ [])
        ≡ (Some (node_of (I64 ∷ []) (instr.Table (table.Get 2)) 0), 9 ∷ []) }
    ensures table_of_other_references { ¬ (table_value_at tabled (Ref funcref) (1 ∷ 9 ∷ [])
        ≡ (Some (node_of (I32 ∷ []) (instr.Table (table.Get 1)) 0), 9 ∷ [])) }
    ensures only_one { table_value_at tabled (Ref external) (1 ∷ 9 ∷ [])
        ≡ (Some (node_of (I32 ∷ []) (instr.Table (table.Get 1)) 0), 1 ∷ 9 ∷ []) }
    ensures none { table_value_at tabled some_func (1 ∷ 9 ∷ []) ≡ (None, 1 ∷ 9 ∷ []) }
{}

fn growth()
    ensures references_before_their_number { table_value_at tabled I32 (1 ∷ 1 ∷ [])
        ≡ (Some (node_of (Ref external ∷ I32 ∷ []) (instr.Table (table.Grow 1)) 0), []) }
    ensures number_before_references { ¬ (table_value_at tabled I32 (1 ∷ 1 ∷ [])
        ≡ (Some (node_of (I32 ∷ Ref external ∷ []) (instr.Table (table.Grow 1)) 0), [])) }
    ensures size_by_a_wide_address { table_value_at tabled I64 (0 ∷ 7 ∷ []) ≡ (Some (node_of [] (instr.Table (table.Size 2)) 0), 7 ∷ []) }
    ensures no_address { table_value_at tabled F32 (0 ∷ 7 ∷ []) ≡ (None, 7 ∷ []) }
    ensures without_reference_types { table_value_at (without_references tabled) I32 (1 ∷ 1 ∷ []) ≡ (None, 1 ∷ []) }
{}

fn changes()
    ensures set { table_change_at tabled (0 ∷ 2 ∷ []) ≡ (Some (node_of (I64 ∷ Ref funcref ∷ []) (instr.Table (table.Set 2)) 0), []) }
    ensures fill { table_change_at tabled (1 ∷ 4 ∷ [])
        ≡ (Some (node_of (I32 ∷ Ref external ∷ I32 ∷ []) (instr.Table (table.Fill 1)) 0), []) }
    ensures set_again { table_change_at tabled (5 ∷ 0 ∷ []) ≡ (Some (node_of (I32 ∷ Ref funcref ∷ []) (instr.Table (table.Set 0)) 0), []) }
    ensures set_without_a_table { table_change_at (holding []) (0 ∷ 2 ∷ []) ≡ (None, 2 ∷ []) }
    ensures set_without_reference_types { table_change_at (without_references tabled) (0 ∷ 2 ∷ []) ≡ (None, 2 ∷ []) }
{}

fn copies()
    ensures out_of_a_wide_table { table_change_at tabled (2 ∷ 0 ∷ 1 ∷ [])
        ≡ (Some (node_of (I32 ∷ I64 ∷ I32 ∷ []) (instr.Table (table.Copy 0 2)) 0), []) }
    ensures within_a_wide_table { table_change_at tabled (2 ∷ 2 ∷ 1 ∷ [])
        ≡ (Some (node_of (I64 ∷ I64 ∷ I64 ∷ []) (instr.Table (table.Copy 2 2)) 0), []) }
    ensures from_where_it_goes { ¬ (table_change_at tabled (2 ∷ 0 ∷ 1 ∷ [])
        ≡ (Some (node_of (I64 ∷ I32 ∷ I32 ∷ []) (instr.Table (table.Copy 2 0)) 0), [])) }
    ensures without_a_table { table_change_at (holding []) (2 ∷ 0 ∷ []) ≡ (None, 0 ∷ []) }
{}

fn segments()
    ensures of_the_same_references { table_change_at tabled (3 ∷ 1 ∷ 0 ∷ [])
        ≡ (Some (node_of (I32 ∷ I32 ∷ I32 ∷ []) (instr.Table (table.Init 1 1)) 0), 0 ∷ []) }
    ensures of_other_references { table_change_at (holding (externals ∷ [])) (3 ∷ 0 ∷ []) ≡ (None, 0 ∷ []) }
    ensures dropped { table_change_at tabled (4 ∷ 1 ∷ []) ≡ (Some (node_of [] (instr.Table (table.ElemDrop 1)) 0), []) }
    ensures none_to_drop { table_change_at (record tabled { elems = [] }) (4 ∷ 1 ∷ []) ≡ (None, 1 ∷ []) }
{}
