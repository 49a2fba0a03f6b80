// The call for two cars, for callers in other languages.
ghost use Rattle.exports.specs.Cars.{IsExportedCars};

use answers::answer::hand_over;
use answers::cars_number::cars_number;

// THE CALL FOR TWO CARS. A mark is a byte. Minus the number of a refusal that reaches both cars, else 256 times the first car's own refusal
// and the second's, 0 for a car that is answered.
pub fn postman_two_cars(
    plan: &[u8],
    marks_1: &[u8],
    budget_1: u64,
    sheet_1: &mut [u16],
    answer_1: &mut [u64],
    multipliers_1: &mut [i64],
    marks_2: &[u8],
    budget_2: u64,
    sheet_2: &mut [u16],
    answer_2: &mut [u64],
    multipliers_2: &mut [i64],
) -> i64
    ensures { IsExportedCars plan.now
        (record {
          marks = marks_1.now;
          budget = budget_1;
          sheet = sheet_1.old;
          sheet' = sheet_1.new;
          words = answer_1.old;
          words' = answer_1.new;
          u = multipliers_1.old;
          u' = multipliers_1.new;
        })
        (record {
          marks = marks_2.now;
          budget = budget_2;
          sheet = sheet_2.old;
          sheet' = sheet_2.new;
          words = answer_2.old;
          words' = answer_2.new;
          u = multipliers_2.old;
          u' = multipliers_2.new;
        })
        result }
{
    let r = two_cars::call::two_cars(plan, marks_1, budget_1, sheet_1, marks_2, budget_2, sheet_2);
    let _first = hand_over(r.first, answer_1, multipliers_1);
    let _second = hand_over(r.second, answer_2, multipliers_2);
    cars_number(r.first, r.second)
}
