//! Contracts that leave one result: what the calls return is proved of their contracts alone. So a body that returns anything else
//! doesn't meet its contract.
ghost use Rattle.std.specs.Prelude.{◌≡◌, ◌∷◌, [], codes, map, IfOk, Ok, Err};
ghost use Rattle.std.specs.String.{string_bytes};
ghost use Rattle.clap.specs.declared.error.kind.ErrorKind.TheVariants.{ArgumentConflict, InvalidValue};
ghost use Rattle.ill_args.specs.Refused.{IsRefusedBy};
ghost use Rattle.ill_tables.specs.declared.profile.Profile.TheVariants.{Two, Module};
ghost use Rattle.ill_args.specs.declared.fault.LineFault.{LineFault};
ghost use Rattle.ill_args.specs.declared.orders.Order.{Order};
ghost use Rattle.test_cli.specs.Orders.{profile_of, IsOfFiles, IsSameOrder};

use ill_args::{LineFault, Order, Work, order};
use std::alloc::Global;

/// Words that give an order give one command on the same files, one profile, and one value of each flag.
fn words_give_one_order<'a>(
    words: &'a [String],
    alloc: Global,
) -> (Result<Order<'a>, LineFault>, Result<Order<'a>, LineFault>)
    ensures { (one other : Order) → result.0 ≡ Ok one → result.1 ≡ Ok other
        → IsSameOrder one other }
{
    (order(alloc, words), order(alloc, words))
}

/// Words that give an order have no fault of their files.
fn words_have_no_fault_of_files<'a>(
    words: &'a [String],
    alloc: Global,
) -> (Result<Order<'a>, LineFault>, Result<Order<'a>, LineFault>)
    ensures { (one : Order) (fault : LineFault) → result.0 ≡ Ok one → result.1 ≡ Err fault
        → IsOfFiles fault → ⊥ }
{
    (order(alloc, words), order(alloc, words))
}

/// Words that name no profile are read in profile 2.
fn profile_two_needs_no_name<'a>(words: &'a [String], alloc: Global) -> Result<Order<'a>, LineFault>
    requires { map string_bytes words.now ≡ codes "illcanon" ∷ codes "check" ∷ codes "A" ∷ [] }
    ensures { IfOk result (λ order. profile_of order ≡ Two) }
{
    order(alloc, words)
}

/// Words that name the module profile are read in it.
fn the_module_profile_is_named<'a>(
    words: &'a [String],
    alloc: Global,
) -> Result<Order<'a>, LineFault>
    requires { map string_bytes words.now ≡ codes "illcanon" ∷ codes "same" ∷ codes "--profile"
        ∷ codes "module" ∷ codes "A" ∷ codes "B" ∷ [] }
    ensures { IfOk result (λ order. profile_of order ≡ Module) }
{
    order(alloc, words)
}

/// Words that name another profile give no order.
fn no_other_profile_is_named<'a>(words: &'a [String], alloc: Global) -> Result<Order<'a>, LineFault>
    requires { map string_bytes words.now ≡ codes "illcanon" ∷ codes "dump" ∷ codes "--profile=3"
        ∷ codes "A" ∷ [] }
    ensures { IsRefusedBy (InvalidValue ∷ []) result }
{
    order(alloc, words)
}

/// Words that name a profile twice give no order.
fn a_profile_is_named_once<'a>(words: &'a [String], alloc: Global) -> Result<Order<'a>, LineFault>
    requires { map string_bytes words.now ≡ codes "illcanon" ∷ codes "show" ∷ codes "--profile=2"
        ∷ codes "--profile=2" ∷ codes "A" ∷ [] }
    ensures { IsRefusedBy (ArgumentConflict ∷ []) result }
{
    order(alloc, words)
}

/// No order compares standard input with itself or writes a file that it reads by the same word, and each has a file.
fn orders_have_files_of_their_own(words: &[String], alloc: Global) {
    match order(alloc, words) {
        Ok(Order::Compare { first, second, .. }) => {
            prove!(first != "-" || second != "-");
        }
        Ok(Order::Each(Work::Write { input, output, .. })) => {
            let name = output.name();
            prove!(input == "-" || input != name);
        }
        Ok(
            Order::Each(
                Work::Print { inputs, .. }
                | Work::Dump { inputs, .. }
                | Work::Collect { inputs, .. },
            ),
        ) => {
            prove!(!inputs.files.is_empty() || inputs.list.is_some());
        }
        Ok(Order::Each(Work::Lines { .. })) | Err(_) => {}
    }
}
