// Worked examples, in the very bytes in which they are written.

pub const COUNTER: &str = "package Counter is
   Count : Integer := 0;
   procedure Inc with Global => (In_Out => Count);
end Counter;
package body Counter is
   procedure Inc is
   begin
      Count := Count + 1;
   end Inc;
end Counter;
";

pub const INPUT_THAT_IS_WRITTEN: &str = "package Counter is
   Count : Integer := 0;
   procedure Inc with Global => (Input => Count);
end Counter;
package body Counter is
   procedure Inc is
   begin
      Count := Count + 1;
   end Inc;
end Counter;
";

pub const OUTPUT_LEFT_ON_A_PATH: &str = "package P is
   X : Integer := 0;
   procedure Set (B : in Boolean) with Global => (Output => X);
end P;
package body P is
   procedure Set (B : in Boolean) is
   begin
      if B then
         X := 1;
      end if;
   end Set;
end P;
";

pub const EARLY_RETURN_ASSIGNS: &str = "package P is
   procedure Q (A : in Integer; R : out Integer);
end P;
package body P is
   procedure Q (A : in Integer; R : out Integer) is
   begin
      if A > 0 then
         R := 1;
         return;
      end if;
      R := 2;
   end Q;
end P;
";

pub const OUT_FORMAL_UNASSIGNED: &str = "package P is
   procedure Q (A : in Integer; R : out Integer);
end P;
package body P is
   procedure Q (A : in Integer; R : out Integer) is
   begin
      if A > 0 then
         return;
      end if;
      R := 2;
   end Q;
end P;
";

pub const SECRET_LEAKS_BY_EXIT: &str = "package P is
   procedure Leak (Secret : in Boolean; X : out Integer)
     with Depends => (X => null, null => Secret);
end P;
package body P is
   procedure Leak (Secret : in Boolean; X : out Integer) is
   begin
      X := 0;
      loop
         exit when Secret;
         X := 1;
         exit;
      end loop;
   end Leak;
end P;
";

pub const GLOBALS_OF_A_CIRCLE: &str = "package P is
   G : Integer := 0;
   procedure A (N : in Natural);
   procedure B (N : in Natural);
   procedure C (N : in Natural);
end P;
package body P is
   procedure A (N : in Natural) is
   begin
      if N > 0 then B (N - 1); end if;
   end A;
   procedure B (N : in Natural) is
   begin
      if N > 0 then C (N - 1); end if;
   end B;
   procedure C (N : in Natural) is
   begin
      if N > 0 then A (N - 1); else G := N; end if;
   end C;
end P;
";

pub const CODE_BEHIND_A_CALL_THAT_NEVER_RETURNS: &str = "package P is
   G : Integer := 0;
   procedure Q;
end P;
package body P is
   procedure Q is
      V : Integer;
   begin
      Q;
      G := V;
   end Q;
end P;
";

pub const COMPONENT_UNASSIGNED: &str = "package P is
   type R is record
      A : Integer;
      B : Integer;
   end record;
   G : R := (0, 0);
   procedure Q;
end P;
package body P is
   procedure Q is
      L : R;
   begin
      L.A := 1;
      G := L;
   end Q;
end P;
";

pub const ARRAY_FILLED_BY_A_LOOP: &str = "package P is
   type Arr is array (1 .. 3) of Integer;
   G : Integer := 0;
   procedure Q;
end P;
package body P is
   procedure Q is
      T : Arr;
   begin
      for I in 1 .. 3 loop
         T (I) := 0;
      end loop;
      G := T (1);
   end Q;
end P;
";

pub const DECLARED_ANEW_IN_EACH_ROUND: &str = "package P is
   G : Integer := 0;
   procedure Q;
end P;
package body P is
   procedure Q is
   begin
      for I in 1 .. 2 loop
         declare
            V : Integer;
         begin
            if I = 2 then
               G := V;
            end if;
            V := I;
         end;
      end loop;
   end Q;
end P;
";

pub const REFINEMENT_KEEPS_A_CONSTITUENT: &str = "package P with Abstract_State => S is
   procedure Set with Global => (Output => S);
end P;
package body P with Refined_State => (S => (A, B)) is
   A : Integer := 0;
   B : Integer := 0;
   procedure Set with Refined_Global => (Output => A) is
   begin
      A := 1;
   end Set;
end P;
";

pub const SHARED_BY_TWO_TASKS: &str = "package P is
   X : Integer := 0;
   task T1;
   task T2;
end P;
package body P is
   task body T1 is
      L : Integer := 0;
   begin
      loop
         L := X;
      end loop;
   end T1;
   task body T2 is
      L : Integer := 0;
   begin
      loop
         L := X;
      end loop;
   end T2;
end P;
";

pub const PRODUCER_AND_CONSUMER: &str = "with Ada.Real_Time; use Ada.Real_Time;
package Bus is
   protected Signal is
      procedure Send;
      entry Wait;
   private
      Ready : Boolean := False;
   end Signal;
   task Producer;
   task Consumer;
end Bus;
package body Bus is
   protected body Signal is
      procedure Send is
      begin
         Ready := True;
      end Send;
      entry Wait when Ready is
      begin
         Ready := False;
      end Wait;
   end Signal;
   task body Producer is
      Next : Time := Clock;
   begin
      loop
         delay until Next;
         Signal.Send;
         Next := Next + Milliseconds (10);
      end loop;
   end Producer;
   task body Consumer is
   begin
      loop
         Signal.Wait;
      end loop;
   end Consumer;
end Bus;
";

pub const ENTRY_CALLED_BY_TWO_TASKS: &str = "with Ada.Real_Time; use Ada.Real_Time;
package Bus is
   protected Signal is
      procedure Send;
      entry Wait;
   private
      Ready : Boolean := False;
   end Signal;
   task Producer;
   task Consumer;
end Bus;
package body Bus is
   protected body Signal is
      procedure Send is
      begin
         Ready := True;
      end Send;
      entry Wait when Ready is
      begin
         Ready := False;
      end Wait;
   end Signal;
   task body Producer is
      Next : Time := Clock;
   begin
      loop
         delay until Next;
         Signal.Wait;
         Next := Next + Milliseconds (10);
      end loop;
   end Producer;
   task body Consumer is
   begin
      loop
         Signal.Wait;
      end loop;
   end Consumer;
end Bus;
";

pub const MAIN_READS_UNASSIGNED: &str = "package P is
   X : Integer;
   Y : Integer := 0;
end P;
with P;
procedure Main is
begin
   P.Y := P.X;
end Main;
";

pub const PARENTHESES_IN_EACH_OTHER: &str = "package P is
   N : constant := ((((((((((((((((((((((((((((((((((((((((((((((((((((((((((((((((((((((((((((((((((((((((((((((((((((((((((((((((((((((((((((((((1))))))))))))))))))))))))))))))))))))))))))))))))))))))))))))))))))))))))))))))))))))))))))))))))))))))))))))))))))))))))))))))));
end P;
";

pub const WIDEST_NUMBER: &str = "package P is
   N : constant := 340282366920938463463374607431768211455;
end P;
";

pub const VALUE_PAST_THE_WIDEST: &str = "package P is
   N : constant := 2 ** 127;
end P;
";

pub const DIVISION_BY_ZERO: &str = "package P is
   N : constant := 1 / 0;
end P;
";

pub const STACK_WITH_STATES: &str = "package Stack with
  SPARK_Mode, Abstract_State => Data, Initializes => Data
is
   Size : constant := 8;
   function Empty return Boolean with Global => Data;
   procedure Push (X : in Integer)
     with Global => (In_Out => Data), Depends => (Data =>+ X);
   procedure Pop (X : out Integer)
     with Global => (In_Out => Data), Depends => ((Data, X) => Data),
          Pre => not Empty;
end Stack;
package body Stack with
  Refined_State => (Data => (Top, Items))
is
   subtype Index is Integer range 0 .. Size;
   type Store is array (1 .. 8) of Integer;
   Top : Index := 0;
   Items : Store := (others => 0);
   function Empty return Boolean is (Top = 0)
     with Refined_Global => Top;
   procedure Push (X : in Integer)
     with Refined_Global => (In_Out => (Top, Items)),
          Refined_Depends => (Top =>+ null, Items =>+ (Top, X))
   is
   begin
      Top := Top + 1;
      Items (Top) := X;
   end Push;
   procedure Pop (X : out Integer)
     with Refined_Global => (Input => Items, In_Out => Top),
          Refined_Depends => (Top => Top, X => (Top, Items))
   is
   begin
      X := Items (Top);
      Top := Top - 1;
   end Pop;
end Stack;
";

pub const STACK_WITHOUT_INITIALIZES: &str = "package Stack with
  SPARK_Mode, Abstract_State => Data, Initializes => Data
is
   Size : constant := 8;
   function Empty return Boolean with Global => Data;
   procedure Push (X : in Integer)
     with Global => (In_Out => Data), Depends => (Data =>+ X);
   procedure Pop (X : out Integer)
     with Global => (In_Out => Data), Depends => ((Data, X) => Data),
          Pre => not Empty;
end Stack;
package body Stack with
  Refined_State => (Data => (Top, Items))
is
   subtype Index is Integer range 0 .. Size;
   type Store is array (1 .. 8) of Integer;
   Top : Index;
   Items : Store := (others => 0);
   function Empty return Boolean is (Top = 0)
     with Refined_Global => Top;
   procedure Push (X : in Integer)
     with Refined_Global => (In_Out => (Top, Items)),
          Refined_Depends => (Top =>+ null, Items =>+ (Top, X))
   is
   begin
      Top := Top + 1;
      Items (Top) := X;
   end Push;
   procedure Pop (X : out Integer)
     with Refined_Global => (Input => Items, In_Out => Top),
          Refined_Depends => (Top => Top, X => (Top, Items))
   is
   begin
      X := Items (Top);
      Top := Top - 1;
   end Pop;
end Stack;
";

pub const CASE_OF_LETTERS: &str = "package counter is
   count : integer := 0;
   procedure inc with global => (in_out => COUNT);
end Counter;
package body Counter is
   procedure Inc is
   begin
      Count := Count + 1;
   end Inc;
end Counter;
";

pub const OUTPUT_UNDER_AN_IF: &str = "package P is
   X : Integer := 0;
   Y : Integer := 0;
   procedure Set with Global => (Input => Y, Output => X);
end P;
package body P is
   procedure Set is
   begin
      if Y > 0 then
         X := 1;
      end if;
   end Set;
end P;
";

pub const GLOBAL_NULL: &str = "package Counter is
   Count : Integer := 0;
   procedure Inc with Global => null;
end Counter;
package body Counter is
   procedure Inc is
   begin
      Count := Count + 1;
   end Inc;
end Counter;
";

pub const CELLS_OF_AN_ARRAY: &str = "package P is
   type Arr is array (1 .. 1_048_577) of Integer;
   G : Arr := (others => 0);
end P;
";

pub const CELLS_AT_THE_LIMIT: &str = "package P is
   type Arr is array (1 .. 1_048_576) of Integer;
   G : Arr := (others => 0);
end P;
";

pub const INITIALIZES: &str = "package P with Initializes => X is
   X : Integer;
   Y : Integer := 0;
end P;
";

pub const ACTUALS_OVERLAP: &str = "package P is
   X : Integer := 0;
   procedure Swap (A, B : in out Integer);
   procedure Q;
end P;
package body P is
   procedure Swap (A, B : in out Integer) is
      T : Integer := A;
   begin
      A := B;
      B := T;
   end Swap;
   procedure Q is
   begin
      Swap (X, X);
   end Q;
end P;
";

pub const ENTRY_CALL_IN_A_PROTECTED_PROCEDURE: &str = "with Ada.Real_Time; use Ada.Real_Time;
package Bus is
   protected Signal is
      procedure Send;
      entry Wait;
   private
      Ready : Boolean := False;
   end Signal;
   task Producer;
   task Consumer;
end Bus;
package body Bus is
   protected body Signal is
      procedure Send is
      begin
         Signal.Wait;
      end Send;
      entry Wait when Ready is
      begin
         Ready := False;
      end Wait;
   end Signal;
   task body Producer is
      Next : Time := Clock;
   begin
      loop
         delay until Next;
         Signal.Send;
         Next := Next + Milliseconds (10);
      end loop;
   end Producer;
   task body Consumer is
   begin
      loop
         Signal.Wait;
      end loop;
   end Consumer;
end Bus;
";

pub const CONSTANT_AFTER_ELABORATION: &str = "package P is
   X : Integer := 0 with Constant_After_Elaboration;
   task T1;
   task T2;
end P;
package body P is
   task body T1 is
      L : Integer := 0;
   begin
      loop
         L := X;
      end loop;
   end T1;
   task body T2 is
      L : Integer := 0;
   begin
      loop
         L := X;
      end loop;
   end T2;
end P;
";

pub const CONSTANT_AFTER_ELABORATION_WITHOUT_ASPECT: &str = "package P is
   X : Integer := 0 with Constant_After_Elaboration;
   task T1;
   task T2;
end P;
package body P is
   task body T1 is
      L : Integer := 0;
   begin
      loop
         X := L;
      end loop;
   end T1;
   task body T2 is
      L : Integer := 0;
   begin
      loop
         L := X;
      end loop;
   end T2;
end P;
";

pub const FILL_CLEARS_THE_ARRAY: &str = "package P is
   type Arr is array (1 .. 3) of Integer;
   G : Arr := (others => 0);
   procedure Clear with Global => (Output => G), Depends => (G => null);
end P;
package body P is
   procedure Clear is
   begin
      for I in G'Range loop
         G (I) := 0;
      end loop;
   end Clear;
end P;
";

pub const FILL_TOO_SHORT: &str = "package P is
   type Arr is array (1 .. 3) of Integer;
   G : Integer := 0;
   procedure Q;
end P;
package body P is
   procedure Q is
      T : Arr;
   begin
      for I in 1 .. 2 loop
         T (I) := 0;
      end loop;
      G := T (1);
   end Q;
end P;
";

pub const FILL_THAT_IS_LEFT: &str = "package P is
   type Arr is array (1 .. 3) of Integer;
   G : Integer := 0;
   procedure Q;
end P;
package body P is
   procedure Q is
      T : Arr;
   begin
      for I in 1 .. 3 loop
         exit when I = 2;
         T (I) := 0;
      end loop;
      G := T (1);
   end Q;
end P;
";

pub const ASSERTION_READS_UNLISTED: &str = "package P is
   X : Integer := 0;
   L : Integer := 9;
   procedure Inc with Global => (In_Out => X), Pre => X < L;
end P;
package body P is
   procedure Inc is
   begin
      X := X + 1;
   end Inc;
end P;
";

pub const PROOF_IN: &str = "package P is
   X : Integer := 0;
   L : Integer := 9;
   procedure Inc with Global => (Proof_In => L, In_Out => X), Pre => X < L;
end P;
package body P is
   procedure Inc is
   begin
      X := X + 1;
   end Inc;
end P;
";

pub const PROOF_IN_OF_ANOTHER_MODE: &str = "package P is
   X : Integer := 0;
   L : Integer := 9;
   procedure Inc with Global => (Proof_In => L, In_Out => X);
end P;
package body P is
   procedure Inc is
   begin
      X := X + 1;
   end Inc;
end P;
";

pub const INEFFECTIVE: &str = "package P is
   procedure Q (A : in Integer; R : out Integer);
end P;
package body P is
   procedure Q (A : in Integer; R : out Integer) is
      T : Integer;
   begin
      T := A;
      R := 1;
      T := R;
      R := A;
   end Q;
end P;
";

pub const INNER_IF_DECIDES_NO_OUTCOME: &str = "package P is
   procedure Q (A, N : in Integer; R, C : out Integer)
     with Depends => (R => (A, N), C => N);
end P;
package body P is
   procedure Q (A, N : in Integer; R, C : out Integer) is
      I : Integer := N;
   begin
      R := 0;
      C := 0;
      while I > 0 loop
         if A > I then
            R := I;
         end if;
         C := C + 1;
         I := I - 1;
      end loop;
   end Q;
end P;
";

pub const TOO_MANY_PARENTHESES: &str = "package P is
   N : constant := (((((((((((((((((((((((((((((((((((((((((((((((((((((((((((((((((((((((((((((((((((((((((((((((((((((((((((((((((((((((((((((((((1)))))))))))))))))))))))))))))))))))))))))))))))))))))))))))))))))))))))))))))))))))))))))))))))))))))))))))))))))))))))))))))))));
end P;
";

pub const NUMBER_PAST_THE_WIDEST: &str = "package P is
   N : constant := 340282366920938463463374607431768211456;
end P;
";

pub const BODY_WITHOUT_STATEMENTS: &str = "procedure Main is
begin";

pub const BYTE_200_IN_A_COMMENT: &[u8] = b"-- \xC8
package Counter is
   Count : Integer := 0;
   procedure Inc with Global => (In_Out => Count);
end Counter;
package body Counter is
   procedure Inc is
   begin
      Count := Count + 1;
   end Inc;
end Counter;
";

pub const BYTE_200_OUTSIDE: &[u8] = b"  \xC8
package Counter is
   Count : Integer := 0;
   procedure Inc with Global => (In_Out => Count);
end Counter;
package body Counter is
   procedure Inc is
   begin
      Count := Count + 1;
   end Inc;
end Counter;
";

/// Those that are in the grammar, each of which some check of the analysis accepts or has a message for.
pub const READ: [&str; 40] = [
    COUNTER,
    INPUT_THAT_IS_WRITTEN,
    OUTPUT_LEFT_ON_A_PATH,
    EARLY_RETURN_ASSIGNS,
    OUT_FORMAL_UNASSIGNED,
    SECRET_LEAKS_BY_EXIT,
    GLOBALS_OF_A_CIRCLE,
    CODE_BEHIND_A_CALL_THAT_NEVER_RETURNS,
    COMPONENT_UNASSIGNED,
    ARRAY_FILLED_BY_A_LOOP,
    DECLARED_ANEW_IN_EACH_ROUND,
    REFINEMENT_KEEPS_A_CONSTITUENT,
    SHARED_BY_TWO_TASKS,
    PRODUCER_AND_CONSUMER,
    ENTRY_CALLED_BY_TWO_TASKS,
    MAIN_READS_UNASSIGNED,
    PARENTHESES_IN_EACH_OTHER,
    WIDEST_NUMBER,
    VALUE_PAST_THE_WIDEST,
    DIVISION_BY_ZERO,
    STACK_WITH_STATES,
    STACK_WITHOUT_INITIALIZES,
    CASE_OF_LETTERS,
    OUTPUT_UNDER_AN_IF,
    GLOBAL_NULL,
    CELLS_OF_AN_ARRAY,
    CELLS_AT_THE_LIMIT,
    INITIALIZES,
    ACTUALS_OVERLAP,
    ENTRY_CALL_IN_A_PROTECTED_PROCEDURE,
    CONSTANT_AFTER_ELABORATION,
    CONSTANT_AFTER_ELABORATION_WITHOUT_ASPECT,
    FILL_CLEARS_THE_ARRAY,
    FILL_TOO_SHORT,
    FILL_THAT_IS_LEFT,
    ASSERTION_READS_UNLISTED,
    PROOF_IN,
    PROOF_IN_OF_ANOTHER_MODE,
    INEFFECTIVE,
    INNER_IF_DECIDES_NO_OUTCOME,
];
