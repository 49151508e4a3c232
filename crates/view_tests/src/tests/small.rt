//! A trace of four nodes and three slots, and what its views are.

// The trace.
pub(super) const TRACE: &str = "\
    ttpbench trace 1 nodes 4 rounds 1 slots 3 schedule 000000\n\
    slot 0 node 0 send peer 0 msg 4 mem 0007 acc 2 rej 0 ack first clock 5\n\
    slot 0 node 1 correct peer 0 msg 4 mem 0007 acc 3 rej 0 ack none clock -3\n\
    slot 0 node 2 correct peer 0 msg - mem 0006 acc 3 rej 1 ack none clock 0\n\
    slot 0 node 3 off peer - msg - mem 0000 acc 0 rej 0 ack none clock 0\n\
    slot 0 host 0 write 5\n\
    slot 0 host 0 write 6\n\
    slot 0 host 1 read 0 3 0a\n\
    slot 0 host 1 read 0 4 0a0b\n\
    slot 1 node 0 tentative peer 1 msg - mem 0007 acc 2 rej 0 ack doubt:1 clock 5\n\
    slot 1 node 1 send peer 1 msg - mem 0007 acc 1 rej 0 ack first clock -3\n\
    slot 1 node 2 clique peer 1 msg - mem 0000 acc 0 rej 0 ack none clock 0\n\
    slot 1 node 3 wait peer - msg - mem 0000 acc 0 rej 0 ack none clock 0\n\
    slot 1 host 1 read 0 4 0c\n\
    slot 2 node 0 denied peer 2 msg - mem 0000 acc 0 rej 0 ack none clock 5\n\
    slot 2 node 1 null peer 2 msg - mem 0003 acc 1 rej 0 ack first clock -3\n\
    slot 2 node 2 gone peer - msg - mem 0000 acc 0 rej 0 ack none clock 0\n\
    slot 2 node 3 wait peer - msg - mem 0000 acc 0 rej 0 ack none clock 0\n\
    keeps no H5 1\n\
    returns no Q8 2\n";

// Its waveform.
pub(super) const WAVE: &str = "\
    $version ttplab wave $end\n$comment ttpbench trace 1 nodes 4 rounds 1 slots 3 schedule 000000 $end\n\
    $comment keeps no H5 1 $end\n$comment returns no Q8 2 $end\n$timescale 1 s $end\n\
    $scope module cluster $end\n$var wire 1 a agree $end\n$var integer 32 b sender $end\n\
    $var wire 16 c active [15:0] $end\n$var wire 16 d leaving [15:0] $end\n\
    $var integer 64 e spread $end\n$scope module node0 $end\n$var wire 1 aA sends $end\n\
    $var string 1 bA phase $end\n$var string 1 cA word $end\n$var integer 32 dA peer $end\n\
    $var integer 32 eA msg $end\n$var wire 16 fA mem [15:0] $end\n$var integer 32 gA acc $end\n\
    $var integer 32 hA rej $end\n$var string 1 iA ack $end\n$var real 64 jA clock $end\n\
    $scope module host $end\n$var integer 32 kA write $end\n$upscope $end\n$upscope $end\n\
    $scope module node1 $end\n$var wire 1 aB sends $end\n$var string 1 bB phase $end\n\
    $var string 1 cB word $end\n$var integer 32 dB peer $end\n$var integer 32 eB msg $end\n\
    $var wire 16 fB mem [15:0] $end\n$var integer 32 gB acc $end\n$var integer 32 hB rej $end\n\
    $var string 1 iB ack $end\n$var real 64 jB clock $end\n$scope module host $end\n\
    $var integer 32 lBA read_0 $end\n$var wire 16 mBA data_0 [15:0] $end\n$upscope $end\n$upscope $end\n\
    $scope module node2 $end\n$var wire 1 aC sends $end\n$var string 1 bC phase $end\n\
    $var string 1 cC word $end\n$var integer 32 dC peer $end\n$var integer 32 eC msg $end\n\
    $var wire 16 fC mem [15:0] $end\n$var integer 32 gC acc $end\n$var integer 32 hC rej $end\n\
    $var string 1 iC ack $end\n$var real 64 jC clock $end\n$upscope $end\n$scope module node3 $end\n\
    $var wire 1 aD sends $end\n$var string 1 bD phase $end\n$var string 1 cD word $end\n\
    $var integer 32 dD peer $end\n$var integer 32 eD msg $end\n$var wire 16 fD mem [15:0] $end\n\
    $var integer 32 gD acc $end\n$var integer 32 hD rej $end\n$var string 1 iD ack $end\n\
    $var real 64 jD clock $end\n$upscope $end\n$upscope $end\n$enddefinitions $end\n#0\n$dumpvars\n0a\n\
    b0 b\nb0000000000000111 c\nb0000000000000000 d\nb1000 e\n1aA\nsactive bA\nssend cA\nb0 dA\nb100 eA\n\
    b0000000000000111 fA\nb10 gA\nb0 hA\nsfirst iA\nr5 jA\nb110 kA\n0aB\nsactive bB\nscorrect cB\n\
    b0 dB\nb100 eB\nb0000000000000111 fB\nb11 gB\nb0 hB\nsnone iB\nr-3 jB\nb100 lBA\n\
    b0000101000001011 mBA\n0aC\nsactive bC\nscorrect cC\nb0 dC\nbz eC\nb0000000000000110 fC\nb11 gC\n\
    b1 hC\nsnone iC\nr0 jC\n0aD\nsoff bD\nsoff cD\nbx dD\nbx eD\nbx fD\nbx gD\nbx hD\nsnone iD\nr0 jD\n\
    $end\n#1\n1a\nb1 b\nb0000000000000011 c\nb0000000000000100 d\n0aA\nstentative cA\nb1 dA\nbz eA\n\
    sdoubt:1 iA\nbz kA\n1aB\nssend cB\nb1 dB\nbz eB\nb1 gB\nsfirst iB\nb00001100 mBA\nsleft bC\n\
    sclique cC\nb1 dC\nbz fC\nbz gC\nbz hC\nslistening bD\nswait cD\nbz dD\nbz eD\nbz fD\nbz gD\nbz hD\n\
    #2\nbz b\nb0000000000000010 c\nb0000000000000001 d\nb0 e\nsleft bA\nsdenied cA\nb10 dA\nbz fA\n\
    bz gA\nbz hA\nsnone iA\n0aB\nsnull cB\nb10 dB\nb0000000000000011 fB\nbz lBA\nbz mBA\nsgone cC\n\
    bz dC\n#3\n";
