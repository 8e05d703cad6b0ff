/// The shapes that are checked, copied or drawn over, in the form of those of `named_shapes.rt`.
pub(crate) const CHECKED_SHAPES: &str = "\
an open array below an open array: group open array i8; open below 0 array i8
a function of two numbers: group func i32,f64 -> i64
an array, a struct and a function, and an empty group: \
    group array (mut i8); struct (mut i8),(mut i8); func i32 -> f64,v128 | group
imports in each form: import env tag tag 3 | items env memory tag 3 | items env first tag 1 \
    | names env first,second func 2
memories in groups, and no function: items env one memory 1 | items a \
    | names b two,three memory 1 | names env - memory 1 | names env - func 9
a reference to no type: global (ref null 0)
an export of nothing: export m memory 0
a table of exactly two elements: table 2 2 (ref null func)
a table of 4,294,967,295 elements: table 4294967295 (ref null func)
a table of 4,294,967,296 elements: table 4294967296 (ref null func)
a memory whose limits are crossed: memory 2 1
a memory of 65,536 pages: memory 65536
a memory of 65,537 pages: memory 65537
a shared memory without a maximum: memory shared 1
a shared memory of one page: memory shared 1 1
a memory of pages of 2 bytes: memory pagesize 2^1 1
a memory of pages of 65,536 bytes: memory pagesize 2^16 1
a reference to a function type: group func -> | global (ref null 0)
an exact reference to a function type: group func -> | global (ref null (exact 0))
10,000 structs, each below the one before: chain 10000
10,000 structs, each below the next in a cycle: cycle 10000
a struct of 10,000 fields: wide 10000
10,000 structs below a chain of 10,000 structs: fan 10000
a function of the last index: func 4294967295
a struct below the last index: group open below 4294967295 struct
10,000 exports: global i32 | exports 9999 | export 0 global 0
10,000 exports, the last named as the first: global i32 | exports 9999 | export 1 global 0
10,000 exports, the last named as the one before: global i32 | exports 9999 \
    | export 9999 global 0
a number: global i32
a shared number: global shared i32
a number and a reference to no type: global i32 | global (ref null 9)
a number and a function of no type: global i32 | func 9
a number and a memory of crossed limits: global i32 | memory 2 1
a number and a vector: global i32 | global v128
a number and two exports of one name: global i32 | export a global 0 | export a global 0
a number and a struct: global i32 | group struct
a number and a shared number: global i32 | global shared i32
a number, a reference to no type and all later faults: global i32 | global (ref null 9) | func 9 \
    | memory 2 1 | global v128 | export a global 0 | export a global 0 | group struct \
    | global shared i32
a number, a function of no type and all later faults: global i32 | func 9 | memory 2 1 \
    | global v128 | export a global 0 | export a global 0 | group struct | global shared i32
a number, a memory of crossed limits and all later faults: global i32 | memory 2 1 | global v128 \
    | export a global 0 | export a global 0 | group struct | global shared i32
a number, a vector and all later faults: global i32 | global v128 | export a global 0 \
    | export a global 0 | group struct | global shared i32
a number, two exports of one name and all later faults: global i32 | export a global 0 \
    | export a global 0 | group struct | global shared i32
a number, a struct and all later faults: global i32 | group struct | global shared i32
";
